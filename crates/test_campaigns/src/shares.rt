//! Worked examples of shares of a paving's open leaves, and of runs by levels.
use pv_keep::MemKeeper;
use std::test::Fail;
use test_calls::Comes::{self, Prints, Stores, Tells};
use test_calls::texts::{ONE_SETTLED, PART, SUMMARY, SYSTEM, WHOLE};
use test_calls::{NONE, Step, USAGE, call_keeping, came_to, follow, shelf};

const FILES: [(&str, &str); 2] = [("s", SYSTEM), ("part", PART)];

const FIRST: &str =
    "paving 2\nidentity be80eb05bcbc91b70b7ad422c002b378eff58622ab1c9a053f3fcbdf6852f81a\nC 0 1:-1 = =\nC 0 1:-2 = =\nS = =\nI = =\nO\n";

const SECOND: &str =
    "paving 2\nidentity be80eb05bcbc91b70b7ad422c002b378eff58622ab1c9a053f3fcbdf6852f81a\nC 0 1:-1 = =\nO\nI = =\n";

const BEGUN: &str =
    "paving 2\nidentity be80eb05bcbc91b70b7ad422c002b378eff58622ab1c9a053f3fcbdf6852f81a\nC 0 1:-1 = =\nC 0 1:-2 = =\nS = =\nO\nO\n";

const FIRST_SUMMARY: &str = "settled 4 cut 2 removed 0 inner 1 small 1 open 1\n";

const SECOND_SUMMARY: &str = "settled 2 cut 1 removed 0 inner 1 small 0 open 1\n";

const BEGUN_SUMMARY: &str = "settled 3 cut 2 removed 0 inner 0 small 1 open 2\n";

// Of two open leaves the first one is number 0.
const SHARES: [Step; 8] = [
    (
        "resume s part --eps 0.25 --share 0/2 --out a",
        Stores(0, FIRST_SUMMARY, "a", FIRST),
    ),
    (
        "resume s part --eps 0.25 --share=1/2 --out b",
        Stores(0, SECOND_SUMMARY, "b", SECOND),
    ),
    (
        "merge s b a b --eps 0.25 --out c",
        Stores(0, SUMMARY, "c", WHOLE),
    ),
    (
        "resume s part --eps 0.25 --share 2/3 --boxes 1 --out d",
        Stores(0, ONE_SETTLED, "d", PART),
    ),
    (
        "resume s part --eps 0.25 --share 0/2 --boxes 2 --workers 3 --out e",
        Stores(1, BEGUN_SUMMARY, "e", BEGUN),
    ),
    (
        "resume s part --eps 0.25 --share 0/2 --boxes 3 --out f",
        Stores(0, FIRST_SUMMARY, "f", FIRST),
    ),
    (
        "resume s e b --eps 0.25 --share 0/1 --out g",
        Stores(0, SUMMARY, "g", WHOLE),
    ),
    (
        "resume s part --eps 0.25 --share 0/2 --boxes 100000",
        Tells(8, "tree limit: 1 settled\n"),
    ),
];

#[test]
fn shares_of_two_leaves(rt: HostRuntime) -> Result<(), Fail> {
    assert_eq!(rt; follow(&rt, rt.alloc(), &FILES, &[], &SHARES)?, None);
    Ok(())
}

const REFUSED: [Step; 10] = [
    ("resume s part --eps 0.25 --share 2/2", Tells(2, USAGE)),
    ("resume s part --eps 0.25 --share 0/0", Tells(2, USAGE)),
    (
        "resume s part --eps 0.25 --share 0/1000001",
        Tells(2, USAGE),
    ),
    ("resume s part --eps 0.25 --share 0", Tells(2, USAGE)),
    ("resume s part --eps 0.25 --share 0/1/1", Tells(2, USAGE)),
    ("resume s part --eps 0.25 --share +0/1", Tells(2, USAGE)),
    (
        "resume s part --eps 0.25 --share 0/2 --order level",
        Tells(2, USAGE),
    ),
    ("resume s part --eps 0.25 --order breadth", Tells(2, USAGE)),
    ("run s --share 0/1", Tells(2, USAGE)),
    (
        "resume s part --eps 0.25 --share 999999/1000000 --order depth --out a",
        Stores(0, ONE_SETTLED, "a", PART),
    ),
];

#[test]
fn words_of_shares_and_orders(rt: HostRuntime) -> Result<(), Fail> {
    assert_eq!(rt; follow(&rt, rt.alloc(), &FILES, &[], &REFUSED)?, None);
    Ok(())
}

// Of boxes down to 1/64 those next to 0 are cut on and on. By levels the leaves with fewer than four
// cuts above them come before all others.
const LEVELS: [Step; 4] = [
    (
        "run s --eps 0.015625 --order level --boxes 7",
        Prints(
            1,
            "settled 7 cut 4 removed 0 inner 3 small 0 open 2\nC 0 1:-1 0:0 1:0\nC 0 1:-2 0:0 1:-1\nC 0 1:-3 0:0 1:-2\nC 0 1:-4 0:0 1:-3\nO\nO\nI 1:-3 1:-2\nI 1:-2 1:-1\nI 1:-1 1:0\n",
        ),
    ),
    (
        "run s --eps 0.015625 --order depth --boxes 3 --workers 1",
        Prints(
            1,
            "settled 3 cut 3 removed 0 inner 0 small 0 open 4\nC 0 1:-1 0:0 1:0\nC 0 1:-2 0:0 1:-1\nC 0 1:-3 0:0 1:-2\nO\nO\nO\nO\n",
        ),
    ),
    (
        "run s --eps 0.25 --order level --workers 1 --out a",
        Stores(0, SUMMARY, "a", WHOLE),
    ),
    (
        "resume s part --eps 0.25 --order level --out b",
        Stores(0, SUMMARY, "b", WHOLE),
    ),
];

#[test]
fn runs_by_levels(rt: HostRuntime) -> Result<(), Fail> {
    assert_eq!(rt; follow(&rt, rt.alloc(), &FILES, &[], &LEVELS)?, None);
    Ok(())
}

// Each round begins with the leaves that have fewer than four cuts above them.
const ROUNDS: [(&str, Comes); 3] = [
    (
        "campaign s --eps 0.015625 --keep k --boxes 3 --order level",
        Prints(1, "settled 3 cut 3 removed 0 inner 0 small 0 open 4\n"),
    ),
    (
        "campaign s --eps 0.015625 --keep k --boxes 3 --order level",
        Prints(1, "settled 6 cut 4 removed 0 inner 2 small 0 open 3\n"),
    ),
    (
        "campaign s --eps 0.015625 --keep k --boxes 3 --order level",
        Prints(1, "settled 9 cut 6 removed 0 inner 3 small 0 open 4\n"),
    ),
];

#[test]
fn campaigns_by_levels(rt: HostRuntime) -> Result<(), Fail> {
    let mut keeper = MemKeeper::new(rt.alloc(), Vec::new(rt.alloc()));
    let mut folder = shelf(rt.alloc(), &FILES, &[])?;
    for (words, comes) in &ROUNDS {
        let answer = call_keeping(&rt, rt.alloc(), words, &mut folder, NONE, &mut keeper)?;
        assert!(rt; came_to(&answer, *comes), "{words}");
    }
    Ok(())
}
