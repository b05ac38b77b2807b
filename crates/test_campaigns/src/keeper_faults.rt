//! Campaigns whose outside fails: each call of the keeper, of the folder and of both streams in
//! turn, and which rows are kept then.
use crate::campaigns::{ROOT, THREE, TWO, are_kept};
use pv_keep::{BeginRefused, Keeper, MemKeeper};
use std::alloc::Global;
use std::process::Abort;
use std::sync::Wait;
use std::test::Fail;
use std::thread::Threads;
use test_calls::Comes::{self, Prints};
use test_calls::texts::{ALL_ROWS, FILES, ONE_SETTLED, SUMMARY};
use test_calls::{Answer, Fails, NONE, call_keeping, came_to, output_failed, shelf};

// A campaign with one worker: what comes of it where nothing fails, and the rows that are kept
// where the keeper's call with a number fails.
struct Case {
    words: &'static str,
    comes: Comes,
    rows: &'static str,
    kept: &'static [&'static str],
}

const FOUR: &str = ". C 0 1:-1 0:0 1:0\n0 C 0 1:-2 0:0 1:-1\n00 S 0:0 1:-2\n01 I 1:-2 1:-1\n";

// Call 0 begins, call 1 loads, and each round saves.
const CASES: [Case; 4] = [
    Case {
        words: "campaign s --eps 0.25 --keep k --boxes 1 --rounds 5 --workers 1",
        comes: Prints(0, SUMMARY),
        rows: ALL_ROWS,
        kept: &["none", "", "", ROOT, TWO, THREE, FOUR],
    },
    Case {
        words: "campaign s --eps 0.25 --keep k --boxes 2 --rounds 9 --workers 1",
        comes: Prints(0, SUMMARY),
        rows: ALL_ROWS,
        kept: &["none", "", "", TWO, FOUR],
    },
    Case {
        words: "campaign s --eps 0.25 --keep k --boxes 1 --workers 1",
        comes: Prints(1, ONE_SETTLED),
        rows: ROOT,
        kept: &["none", "", ""],
    },
    Case {
        words: "campaign s --eps 0.25 --keep k --workers 4",
        comes: Prints(0, SUMMARY),
        rows: ALL_ROWS,
        kept: &["none", "", ""],
    },
];

// A call over the files, and the keeper behind it.
fn call_over<R: Threads + Wait + Sync>(
    rt: &R,
    alloc: Global,
    words: &str,
    fails: Fails<'_>,
) -> Result<(Answer, MemKeeper), Fail> {
    let mut folder = shelf(alloc, &FILES, fails.folder)?;
    let mut keeper = MemKeeper::new(alloc, fails.keeper.to_vec(alloc)?);
    let answer = call_keeping(rt, alloc, words, &mut folder, fails, &mut keeper)?;
    Ok((answer, keeper))
}

// A call with these failures has this status and line, prints nothing, and keeps these rows.
fn refused<R: Abort + Threads + Wait + Sync>(
    rt: &R,
    alloc: Global,
    words: &str,
    fails: Fails<'_>,
    status: u8,
    line: &str,
    rows: &str,
) -> Result<(), Fail> {
    let (answer, mut keeper) = call_over(rt, alloc, words, fails)?;
    assert!(rt; answer.is(status, "", line), "{words}");
    are_kept(rt, alloc, words, &mut keeper, rows)
}

// The keeper's call with this number fails, and then each call of the standard error too.
fn keeper_fails<R: Abort + Threads + Wait + Sync>(
    rt: &R,
    alloc: Global,
    words: &str,
    number: u64,
    rows: &str,
) -> Result<(), Fail> {
    let line = "keeper fault: k\n";
    let failing = Fails {
        keeper: &[number],
        ..NONE
    };
    refused(rt, alloc, words, failing, 10, line, rows)?;
    for write in 0..8 {
        let untold = Fails {
            err: &[write],
            ..failing
        };
        let (answer, mut keeper) = call_over(rt, alloc, words, untold)?;
        assert_eq!(rt; answer.status, 10, "{words}: {number}");
        let said = answer.err.bytes();
        assert!(rt; line.as_bytes().starts_with(said), "{words}: {number}");
        are_kept(rt, alloc, words, &mut keeper, rows)?;
    }
    Ok(())
}

fn each_keeper_call_fails<R: Abort + Threads + Wait + Sync>(
    rt: &R,
    alloc: Global,
    case: &Case,
) -> Result<(), Fail> {
    for (number, rows) in case.kept.iter().enumerate() {
        keeper_fails(rt, alloc, case.words, number as u64, *rows)?;
    }
    Ok(())
}

#[test]
fn each_call_of_the_keeper_fails(rt: HostRuntime) -> Result<(), Fail> {
    let alloc = rt.alloc();
    for case in &CASES {
        each_keeper_call_fails(&rt, alloc, case)?;
    }
    Ok(())
}

// No campaign calls the keeper more often than there are rows in its list.
#[test]
fn nothing_of_the_keeper_fails(rt: HostRuntime) -> Result<(), Fail> {
    let alloc = rt.alloc();
    for case in &CASES {
        let words = case.words;
        let number = [case.kept.len() as u64];
        let fails = Fails {
            keeper: &number,
            ..NONE
        };
        let (answer, mut keeper) = call_over(&rt, alloc, words, fails)?;
        assert!(rt; came_to(&answer, case.comes), "{words}");
        let next = keeper.begin("z", [0; 32]);
        assert!(rt; matches!(next, Err(BeginRefused::Failed)), "{words}");
        are_kept(&rt, alloc, words, &mut keeper, case.rows)?;
    }
    Ok(())
}

#[test]
fn the_folder_of_a_campaign_fails(rt: HostRuntime) -> Result<(), Fail> {
    let alloc = rt.alloc();
    let fails = Fails {
        folder: &[0],
        ..NONE
    };
    for case in &CASES {
        refused(&rt, alloc, case.words, fails, 5, "read fault: s\n", "none")?;
    }
    Ok(())
}

// The call of the standard output with this number fails. Answers whether there is such a call. All
// rounds are kept.
fn out_fails<R: Abort + Threads + Wait + Sync>(
    rt: &R,
    alloc: Global,
    case: &Case,
    number: u64,
) -> Result<bool, Fail> {
    let words = case.words;
    let fails = Fails {
        out: &[number],
        ..NONE
    };
    let (mut answer, mut keeper) = call_over(rt, alloc, words, fails)?;
    are_kept(rt, alloc, words, &mut keeper, case.rows)?;
    let failed = output_failed(&mut answer, case.comes);
    assert!(rt; failed.is_some(), "{words}");
    Ok(failed == Some(true))
}

// How many calls of the standard output there are, each of which fails in turn; at most 8.
fn count_of_out<R: Abort + Threads + Wait + Sync>(
    rt: &R,
    alloc: Global,
    case: &Case,
) -> Result<u64, Fail> {
    for number in 0..8 {
        if !out_fails(rt, alloc, case, number)? {
            return Ok(number);
        }
    }
    Ok(8)
}

#[test]
fn each_output_of_a_campaign_fails(rt: HostRuntime) -> Result<(), Fail> {
    let alloc = rt.alloc();
    for case in &CASES {
        let count = count_of_out(&rt, alloc, case)?;
        let words = case.words;
        assert!(rt; 0 < count && count < 8, "{words}");
    }
    Ok(())
}
