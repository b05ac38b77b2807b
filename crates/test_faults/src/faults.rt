//! Commands whose outside fails: each call of the folder, of the standard output and of the
//! standard error in turn.
use crate::fault_cases::{CASES, Case};
use pv_io::{FetchRefused, Folder, MemFolder, Sink};
use std::alloc::Global;
use std::process::Abort;
use std::sync::Wait;
use std::test::Fail;
use std::thread::Threads;
use test_calls::texts::FILES;
use test_calls::{Answer, Comes, Fails, NONE, call, came_to, holds, lacks, output_failed, shelf};

// No command writes so often.
const MOST_WRITES: u64 = 100;

// A call over the files, and the folder behind it.
fn call_over<R: Threads + Wait + Sync>(
    rt: &R,
    alloc: Global,
    words: &str,
    fails: Fails<'_>,
) -> Result<(Answer, MemFolder), Fail> {
    let mut folder = shelf(alloc, &FILES, fails.folder)?;
    let answer = call(rt, alloc, words, &mut folder, fails)?;
    Ok((answer, folder))
}

// Each file holds what it held.
fn are_kept(rt: &impl Abort, alloc: Global, words: &str, folder: &mut MemFolder) {
    for (name, text) in &FILES {
        assert!(rt; holds(alloc, folder, name, text), "{words}: {name}");
    }
}

// The file that is asked for holds what it is to hold, or nothing at all.
fn is_written(
    rt: &impl Abort,
    alloc: Global,
    words: &str,
    comes: Comes,
    folder: &mut MemFolder,
    is_stored: bool,
) {
    if let Comes::Stores(_, _, file, text) = comes {
        if is_stored {
            assert!(rt; holds(alloc, folder, file, text), "{words}");
        } else {
            assert!(rt; lacks(alloc, folder, file), "{words}");
        }
    }
}

fn status_of(line: &str) -> u8 {
    if line.starts_with("read fault: ") {
        5
    } else {
        6
    }
}

// The call of the folder with this number fails.
fn folder_fails<R: Abort + Threads + Wait + Sync>(
    rt: &R,
    alloc: Global,
    case: &Case,
    number: u64,
    line: &str,
) -> Result<(), Fail> {
    let (words, comes, _) = *case;
    let fails = Fails {
        folder: &[number],
        ..NONE
    };
    let (answer, mut folder) = call_over(rt, alloc, words, fails)?;
    let status = status_of(line);
    assert!(rt; answer.is(status, "", line), "{words}");
    are_kept(rt, alloc, words, &mut folder);
    if status == 5 {
        is_written(rt, alloc, words, comes, &mut folder, false);
    }
    Ok(())
}

fn each_folder_call_fails<R: Abort + Threads + Wait + Sync>(
    rt: &R,
    alloc: Global,
    case: &Case,
) -> Result<(), Fail> {
    let (_, _, lines) = *case;
    for (number, line) in lines.iter().enumerate() {
        folder_fails(rt, alloc, case, number as u64, *line)?;
    }
    Ok(())
}

#[test]
fn each_call_of_the_folder_fails(rt: HostRuntime) -> Result<(), Fail> {
    let alloc = rt.alloc();
    for case in &CASES {
        each_folder_call_fails(&rt, alloc, case)?;
    }
    Ok(())
}

// No command calls the folder more often than there are lines.
#[test]
fn nothing_fails(rt: HostRuntime) -> Result<(), Fail> {
    let alloc = rt.alloc();
    for case in &CASES {
        let (words, comes, lines) = *case;
        let number = [lines.len() as u64];
        let fails = Fails {
            folder: &number,
            ..NONE
        };
        let (answer, mut folder) = call_over(&rt, alloc, words, fails)?;
        assert!(rt; came_to(&answer, comes), "{words}");
        let mut none = Vec::new(alloc);
        let found = folder.fetch("s", 100_000, &mut none);
        assert!(rt; matches!(found, Err(FetchRefused::Failed)), "{words}");
        are_kept(&rt, alloc, words, &mut folder);
        is_written(&rt, alloc, words, comes, &mut folder, comes.status() < 2);
    }
    Ok(())
}

// The call of the standard output with this number fails. Answers whether there is such a call.
fn out_fails<R: Abort + Threads + Wait + Sync>(
    rt: &R,
    alloc: Global,
    case: &Case,
    number: u64,
) -> Result<bool, Fail> {
    let (words, comes, _) = *case;
    let fails = Fails {
        out: &[number],
        ..NONE
    };
    let (mut answer, mut folder) = call_over(rt, alloc, words, fails)?;
    are_kept(rt, alloc, words, &mut folder);
    is_written(rt, alloc, words, comes, &mut folder, comes.status() < 2);
    let failed = output_failed(&mut answer, comes);
    assert!(rt; failed.is_some(), "{words}");
    Ok(failed == Some(true))
}

// How many calls of the standard output there are, each of which fails in turn.
fn count_of_out<R: Abort + Threads + Wait + Sync>(
    rt: &R,
    alloc: Global,
    case: &Case,
) -> Result<u64, Fail> {
    for number in 0..MOST_WRITES {
        if !out_fails(rt, alloc, case, number)? {
            return Ok(number);
        }
    }
    Ok(MOST_WRITES)
}

// A command writes to the output exactly where it has something to print.
#[test]
fn each_call_of_the_output_fails(rt: HostRuntime) -> Result<(), Fail> {
    let alloc = rt.alloc();
    for case in &CASES {
        let (words, comes, _) = *case;
        let count = count_of_out(&rt, alloc, case)?;
        assert!(rt; count < MOST_WRITES, "{words}");
        assert_eq!(rt; count == 0, comes.out().is_empty(), "{words}");
    }
    Ok(())
}

// What fails beside the standard error, and what comes of a call then.
#[derive(Clone, Copy)]
struct Told {
    fails: Fails<'static>,
    status: u8,
    line: &'static str,
}

// The call of the standard error with this number fails. Answers whether there is such a call.
fn err_fails<R: Abort + Threads + Wait + Sync>(
    rt: &R,
    alloc: Global,
    words: &str,
    told: Told,
    number: u64,
) -> Result<bool, Fail> {
    let fails = Fails {
        err: &[number],
        ..told.fails
    };
    let (mut answer, mut folder) = call_over(rt, alloc, words, fails)?;
    assert_eq!(rt; answer.status, told.status, "{words}: {number}");
    are_kept(rt, alloc, words, &mut folder);
    let said = answer.err.bytes();
    assert!(rt; told.line.as_bytes().starts_with(said), "{words}: {number}");
    let is_whole = said == told.line.as_bytes();
    if answer.err.write(b"").is_err() {
        assert!(rt; is_whole, "{words}: {number}");
        return Ok(false);
    }
    assert!(rt; !is_whole, "{words}: {number}");
    Ok(true)
}

// Each call of the standard error fails in turn: there are some exactly where there is a line, and
// the status stays.
fn each_fails<R: Abort + Threads + Wait + Sync>(
    rt: &R,
    alloc: Global,
    words: &str,
    told: Told,
) -> Result<(), Fail> {
    for number in 0..MOST_WRITES {
        if !err_fails(rt, alloc, words, told, number)? {
            assert_eq!(rt; number == 0, told.line.is_empty(), "{words}");
            return Ok(());
        }
    }
    assert!(rt; false, "{words}");
    Ok(())
}

#[test]
fn each_call_of_the_error_stream_fails(rt: HostRuntime) -> Result<(), Fail> {
    let alloc = rt.alloc();
    for case in &CASES {
        let (words, comes, _) = *case;
        let told = Told {
            fails: NONE,
            status: comes.status(),
            line: comes.err(),
        };
        each_fails(&rt, alloc, words, told)?;
    }
    Ok(())
}

const NUMBERS: [&[u64]; 4] = [&[0], &[1], &[2], &[3]];

// Each call of the folder fails, and with it each call of the standard error.
fn folder_and_error_fail<R: Abort + Threads + Wait + Sync>(
    rt: &R,
    alloc: Global,
    case: &Case,
) -> Result<(), Fail> {
    let (words, _, lines) = *case;
    for (line, number) in lines.iter().zip(&NUMBERS) {
        let told = Told {
            fails: Fails {
                folder: *number,
                ..NONE
            },
            status: status_of(*line),
            line: *line,
        };
        each_fails(rt, alloc, words, told)?;
    }
    Ok(())
}

#[test]
fn the_folder_and_the_error_stream_fail(rt: HostRuntime) -> Result<(), Fail> {
    let alloc = rt.alloc();
    for case in &CASES {
        folder_and_error_fail(&rt, alloc, case)?;
    }
    Ok(())
}

#[test]
fn both_streams_fail(rt: HostRuntime) -> Result<(), Fail> {
    let alloc = rt.alloc();
    let told = Told {
        fails: Fails { out: &[0], ..NONE },
        status: 6,
        line: "write fault: standard output\n",
    };
    for case in &CASES {
        let (words, comes, _) = *case;
        if !comes.out().is_empty() {
            each_fails(&rt, alloc, words, told)?;
        }
    }
    Ok(())
}
