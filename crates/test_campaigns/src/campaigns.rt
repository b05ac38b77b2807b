//! Worked examples of campaigns over a keeper in memory: their rounds, why they are refused, and
//! what is kept.
ghost use Rattle.std.specs.Prelude.{◌≡◌};
ghost use Rattle.pv_keep.specs.Keeping.{absent};

use crate::giving::{Giving, rows_of};
use pv_keep::{BeginRefused, Keeper, Line, MemKeeper, Row, Rows};
use pv_tree::Path;
use std::alloc::Global;
use std::process::Abort;
use std::sync::Wait;
use std::test::Fail;
use std::thread::Threads;
use test_calls::Comes::{self, Prints, Tells};
use test_calls::texts::{ALL_ROWS, IDENTITY, ONE_SETTLED, SUMMARY, SYSTEM};
use test_calls::{NONE, USAGE, call_keeping, came_to, push_rows, shelf};

// The words, what comes of them, and what is kept under the name `k` then: the path and the line of
// each row.
type Turn = (&'static str, Comes, &'static str);

pub(crate) const ROOT: &str = ". C 0 1:-1 0:0 1:0\n";

pub(crate) const TWO: &str = ". C 0 1:-1 0:0 1:0\n0 C 0 1:-2 0:0 1:-1\n";

pub(crate) const THREE: &str = ". C 0 1:-1 0:0 1:0\n0 C 0 1:-2 0:0 1:-1\n00 S 0:0 1:-2\n";

// The rows of a name, whose identity this is.
fn loaded<P: Keeper>(
    alloc: Global,
    keeper: &mut P,
    name: &str,
    identity: [u8; 32],
) -> Result<Rows, Fail> {
    let mut rows = Rows::new(alloc);
    if keeper.begin(name, identity).is_err() {
        return Err("not begun")?;
    }
    match keeper.load(200_000, &mut rows) {
        Ok(()) => Ok(rows),
        Err(_) => Err("not loaded")?,
    }
}

// What is kept under a name, or "none" where nothing is.
fn kept(alloc: Global, keeper: &mut MemKeeper, name: &str) -> Result<Vec<u8>, Fail> {
    let mut out = Vec::new(alloc);
    match keeper.begin(name, [0; 32]) {
        Err(BeginRefused::OtherIdentity { kept }) => {
            push_rows(&loaded(alloc, keeper, name, kept)?, &mut out)?;
            Ok(out)
        }
        _ => {
            out.extend_from_slice(b"none")?;
            Ok(out)
        }
    }
}

/// These rows are kept under the name `k`.
pub(crate) fn are_kept(
    rt: &impl Abort,
    alloc: Global,
    words: &str,
    keeper: &mut MemKeeper,
    rows: &str,
) -> Result<(), Fail> {
    let held = kept(alloc, keeper, "k")?;
    assert_eq!(rt; held.as_slice(), rows.as_bytes(), "{words}");
    Ok(())
}

// The words come to this over a keeper.
fn take<R: Abort + Threads + Wait + Sync, P: Keeper>(
    rt: &R,
    alloc: Global,
    keeper: &mut P,
    words: &str,
    comes: Comes,
) -> Result<(), Fail> {
    let mut folder = shelf(alloc, &[("s", SYSTEM), ("bad", "Variables")], &[])?;
    let answer = call_keeping(rt, alloc, words, &mut folder, NONE, keeper)?;
    assert!(rt; came_to(&answer, comes), "{words}");
    Ok(())
}

// Takes each turn over a keeper whose calls fail by a list, and looks at what is kept behind each.
fn check<R: Abort + Threads + Wait + Sync>(
    rt: &R,
    alloc: Global,
    fails: &[u64],
    turns: &[Turn],
) -> Result<(), Fail> {
    let mut keeper = MemKeeper::new(alloc, fails.to_vec(alloc)?);
    for (words, comes, rows) in turns {
        take(rt, alloc, &mut keeper, words, *comes)?;
        are_kept(rt, alloc, words, &mut keeper, rows)?;
    }
    Ok(())
}

const ROUNDS: [Turn; 8] = [
    (
        "campaign s --eps 0.25 --keep k --boxes 1 --rounds 1",
        Prints(1, ONE_SETTLED),
        ROOT,
    ),
    (
        "campaign s --eps 0.25 --keep k --boxes 1 --rounds 4",
        Prints(0, SUMMARY),
        ALL_ROWS,
    ),
    // A round that has nothing to settle is not begun.
    (
        "campaign s --eps 0.25 --keep k --boxes 1",
        Prints(0, SUMMARY),
        ALL_ROWS,
    ),
    // Another name is another campaign, with one round where the words give no number.
    (
        "campaign --keep=other --boxes=2 s --eps 0.25",
        Prints(1, "settled 2 cut 2 removed 0 inner 0 small 0 open 3\n"),
        ALL_ROWS,
    ),
    (
        "campaign s --eps 0.5 --keep k --boxes 1",
        Tells(4, "paving k: wrong identity\n"),
        ALL_ROWS,
    ),
    (
        "run s --eps 0.25 --boxes 1 --out m",
        Prints(1, ONE_SETTLED),
        ALL_ROWS,
    ),
    // One form's campaign is not gone on with by the other.
    (
        "campaign s --eps 0.25 --keep c --boxes 1 --form centered",
        Prints(1, ONE_SETTLED),
        ALL_ROWS,
    ),
    (
        "campaign s --eps 0.25 --keep c --boxes 1",
        Tells(4, "paving c: wrong identity\n"),
        ALL_ROWS,
    ),
];

#[test]
fn rounds_go_on(rt: HostRuntime) -> Result<(), Fail> {
    check(&rt, rt.alloc(), &[], &ROUNDS)
}

// The same in one call, by one worker and by several, in rounds of several sizes.
#[test]
fn rounds_at_once(rt: HostRuntime) -> Result<(), Fail> {
    for words in [
        "campaign s --eps 0.25 --keep k --boxes 1 --rounds 5",
        "campaign s --eps 0.25 --keep k --boxes 1 --rounds 100 --workers 1",
        "campaign s --eps 0.25 --keep k --boxes 2 --rounds 3 --workers 2",
        "campaign s --eps 0.25 --keep k --boxes 5 --workers 8",
        "campaign s --eps 0.25 --keep k",
    ] {
        check(
            &rt,
            rt.alloc(),
            &[],
            &[(words, Prints(0, SUMMARY), ALL_ROWS)],
        )?;
    }
    Ok(())
}

// Calls of the keeper that fail, and the rows that are kept then. Call 0 begins, call 1 loads, and
// the others save.
const FAILED: [(u64, &str); 4] = [(1, ""), (2, ""), (3, ROOT), (0, "none")];

#[test]
fn failed_keeper(rt: HostRuntime) -> Result<(), Fail> {
    for (call, rows) in FAILED {
        let turn = (
            "campaign s --eps 0.25 --keep k --boxes 1 --rounds 5",
            Tells(10, "keeper fault: k\n"),
            rows,
        );
        check(&rt, rt.alloc(), &[call], &[turn])?;
    }
    Ok(())
}

// By one worker it is the first open leaf that is settled next.
#[test]
fn failed_later(rt: HostRuntime) -> Result<(), Fail> {
    for (call, rows) in [(4, TWO), (5, THREE)] {
        let turn = (
            "campaign s --eps 0.25 --keep k --boxes 1 --rounds 5 --workers 1",
            Tells(10, "keeper fault: k\n"),
            rows,
        );
        check(&rt, rt.alloc(), &[call], &[turn])?;
    }
    Ok(())
}

// Words that come to a line alone. Nothing is begun.
const REFUSED: [(&str, Comes); 12] = [
    ("campaign s --eps 0.25", Tells(2, USAGE)),
    ("campaign s --keep k --rounds 0", Tells(2, USAGE)),
    ("campaign s --keep k --rounds 101", Tells(2, USAGE)),
    ("campaign s --keep k --rounds +1", Tells(2, USAGE)),
    ("campaign s --keep k --boxes 0", Tells(2, USAGE)),
    ("campaign s --keep k --workers 17", Tells(2, USAGE)),
    ("campaign s --keep k --eps x", Tells(2, USAGE)),
    ("campaign s --keep k --out m", Tells(2, USAGE)),
    ("campaign s --keep k --keep k", Tells(2, USAGE)),
    (
        "campaign s --keep k --contract hc4(1)",
        Tells(2, "contract: refused at byte 4\n"),
    ),
    (
        "campaign bad --keep k",
        Tells(3, "system: line 1 column 10 byte 9: EndOfText\n"),
    ),
    ("campaign t --keep k", Tells(11, "no file: t\n")),
];

#[test]
fn refused_early(rt: HostRuntime) -> Result<(), Fail> {
    for (words, comes) in REFUSED {
        check(&rt, rt.alloc(), &[], &[(words, comes, "none")])?;
    }
    Ok(())
}

const LIMITS: [Turn; 4] = [
    (
        "campaign s --eps 0.25 --keep k --boxes 1001 --rounds 100",
        Tells(8, "tree limit: 0 settled\n"),
        "",
    ),
    (
        "campaign s --eps 0.25 --keep k --boxes 1",
        Prints(1, ONE_SETTLED),
        ROOT,
    ),
    (
        "campaign s --eps 0.25 --keep k --boxes 1000 --rounds 100",
        Tells(8, "tree limit: 1 settled\n"),
        ROOT,
    ),
    (
        "campaign s --eps 0.25 --keep k --boxes 99999",
        Prints(0, SUMMARY),
        ALL_ROWS,
    ),
];

#[test]
fn tree_limit(rt: HostRuntime) -> Result<(), Fail> {
    check(&rt, rt.alloc(), &[], &LIMITS)
}

// Keeps one row under a name that is absent.
fn keep_row<P: Keeper>(
    alloc: Global,
    keeper: &mut P,
    name: &str,
    path: Path,
    line: &[u8],
) -> Result<(), Fail>
    requires { P.kept keeper.old name.now ≡ absent }
{
    let line = match Line::of(alloc, line) {
        Ok(Some(line)) => line,
        _ => return Err("no line")?,
    };
    let mut rows = Rows::new(alloc);
    if rows.push(Row { path, line }).is_err() {
        return Err("no memory")?;
    }
    if keeper.begin(name, IDENTITY).is_err() {
        return Err("not begun")?;
    }
    match keeper.save(&rows) {
        Ok(()) => Ok(()),
        Err(_) => Err("not saved")?,
    }
}

#[test]
fn bad_row(rt: HostRuntime) -> Result<(), Fail> {
    let alloc = rt.alloc();
    let mut keeper = MemKeeper::new(alloc, Vec::new(alloc));
    keep_row(alloc, &mut keeper, "k", Path::root().low(), b"X")?;
    let words = "campaign s --eps 0.25 --keep k --boxes 1";
    take(
        &rt,
        alloc,
        &mut keeper,
        words,
        Tells(4, "paving k: bad row 0\n"),
    )?;
    are_kept(&rt, alloc, words, &mut keeper, "0 X\n")
}

// A campaign whose keeper gives so many rows of one path is refused by this line.
fn refused_with<R: Abort + Threads + Wait + Sync>(
    rt: &R,
    alloc: Global,
    path: Path,
    count: u32,
    line: &'static str,
) -> Result<(), Fail> {
    let mut keeper = Giving {
        alloc,
        rows: rows_of(alloc, path, count)?,
        begun: None,
    };
    let words = "campaign s --eps 0.25 --keep k";
    take(rt, alloc, &mut keeper, words, Tells(4, line))
}

// The second row of the root is bad.
#[test]
fn many_rows(rt: HostRuntime) -> Result<(), Fail> {
    let root = Path::root();
    refused_with(&rt, rt.alloc(), root, 100_001, "paving k: too many rows\n")?;
    refused_with(&rt, rt.alloc(), root, 2, "paving k: bad row 1\n")
}

#[test]
fn more_than_100_000_rows_are_too_many(rt: HostRuntime) -> Result<(), Fail> {
    let low = Path::root().low();
    refused_with(&rt, rt.alloc(), low, 100_001, "paving k: too many rows\n")?;
    refused_with(&rt, rt.alloc(), low, 100_000, "paving k: bad row 0\n")
}
