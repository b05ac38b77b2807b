//! The calls whose outside is made to fail: each command, at its statuses.
use test_calls::Comes::{self, Prints, Stores, Tells};
use test_calls::USAGE;
use test_calls::texts::{
    HALF, INNER, INNER_NODE, NODES, ONE_SETTLED, PART, PART_NODES, SAMPLE_OF_TWO, SOLID, SUMMARY,
    WHOLE,
};

/// The words, what comes of them where nothing fails, and the line for each call of the folder that
/// fails.
pub(crate) type Case = (&'static str, Comes, &'static [&'static str]);

pub(crate) const CASES: [Case; 37] = [
    (
        "check s",
        Prints(0, "vars 1\nx 0:0 1:0\nctrs 1\n>= (/ 1/1 v0) 0/1\n"),
        &["read fault: s\n"],
    ),
    (
        "check plus",
        Tells(3, "system: line 1 column 39 byte 38: Unexpected\n"),
        &["read fault: plus\n"],
    ),
    (
        "check nowhere",
        Tells(11, "no file: nowhere\n"),
        &["read fault: nowhere\n"],
    ),
    ("check s part", Tells(2, USAGE), &[]),
    ("run s --eps 0.25", Prints(0, NODES), &["read fault: s\n"]),
    (
        "run s --eps 0.25 --workers 4",
        Prints(0, NODES),
        &["read fault: s\n"],
    ),
    (
        "run s --eps 0.25 --boxes 1",
        Prints(1, PART_NODES),
        &["read fault: s\n"],
    ),
    (
        "run s --eps 0.25 --out m",
        Stores(0, SUMMARY, "m", WHOLE),
        &["read fault: s\n", "write fault: m\n"],
    ),
    (
        "run s --eps 0.25 --boxes 1 --out m",
        Stores(1, ONE_SETTLED, "m", PART),
        &["read fault: s\n", "write fault: m\n"],
    ),
    (
        "run s --contract hc4(1)",
        Tells(2, "contract: refused at byte 4\n"),
        &["read fault: s\n"],
    ),
    (
        "run-centered less",
        Prints(0, INNER_NODE),
        &["read fault: less\n"],
    ),
    (
        "run-centered less --workers 4 --out m",
        Stores(0, INNER, "m", SOLID),
        &["read fault: less\n", "write fault: m\n"],
    ),
    (
        "resume s part --eps 0.25 --boxes 4",
        Prints(0, NODES),
        &["read fault: s\n", "read fault: part\n"],
    ),
    (
        "resume s part --eps 0.25 --boxes 4 --out m",
        Stores(0, SUMMARY, "m", WHOLE),
        &["read fault: s\n", "read fault: part\n", "write fault: m\n"],
    ),
    (
        "resume s b --eps 0.25",
        Tells(4, "paving b: bad line 5\n"),
        &["read fault: s\n", "read fault: b\n"],
    ),
    (
        "resume s whole --eps 0.5",
        Tells(4, "paving whole: wrong identity\n"),
        &["read fault: s\n", "read fault: whole\n"],
    ),
    (
        "resume s whole --eps 0.25 --boxes 99996",
        Tells(8, "tree limit: 5 settled\n"),
        &["read fault: s\n", "read fault: whole\n"],
    ),
    (
        "merge s A B --eps 0.25 --out m",
        Stores(0, SUMMARY, "m", WHOLE),
        &[
            "read fault: s\n",
            "read fault: A\n",
            "read fault: B\n",
            "write fault: m\n",
        ],
    ),
    (
        "merge s A B A --eps 0.25",
        Prints(0, NODES),
        &[
            "read fault: s\n",
            "read fault: A\n",
            "read fault: B\n",
            "read fault: A\n",
        ],
    ),
    (
        "merge s part --eps 0.25 --out m",
        Stores(1, ONE_SETTLED, "m", PART),
        &["read fault: s\n", "read fault: part\n", "write fault: m\n"],
    ),
    (
        "merge s B F --eps 0.25",
        Tells(9, "disagree 0: C 0 1:-2 0:0 1:-1 | I 0:0 1:-1\n"),
        &["read fault: s\n", "read fault: B\n", "read fault: F\n"],
    ),
    (
        "merge s B F A --eps 0.25",
        Tells(9, "disagree 0: C 0 1:-2 0:0 1:-1 | I 0:0 1:-1\n"),
        &[
            "read fault: s\n",
            "read fault: B\n",
            "read fault: F\n",
            "read fault: A\n",
        ],
    ),
    (
        "audit s A --eps 0.25",
        Prints(0, "honest\n"),
        &["read fault: s\n", "read fault: A\n"],
    ),
    (
        "audit s F --eps 0.25",
        Tells(9, "differs 0: I 0:0 1:-1 | C 0 1:-2 0:0 1:-1\n"),
        &["read fault: s\n", "read fault: F\n"],
    ),
    (
        "audit-centered less solid",
        Prints(0, "honest\n"),
        &["read fault: less\n", "read fault: solid\n"],
    ),
    (
        "audit-centered less open",
        Tells(9, "differs .: C 0 1:-1 0:0 1:0 | I 0:0 1:0\n"),
        &["read fault: less\n", "read fault: open\n"],
    ),
    (
        "audit-centered s whole --eps 0.25",
        Tells(4, "paving whole: wrong identity\n"),
        &["read fault: s\n", "read fault: whole\n"],
    ),
    (
        "svg square left --x x --y y",
        Prints(0, HALF),
        &["read fault: square\n", "read fault: left\n"],
    ),
    (
        "svg square left --x x --y z",
        Tells(2, USAGE),
        &["read fault: square\n"],
    ),
    (
        "least s --eps 0.25 --of x",
        Prints(0, "lower 0:0\nupper 1:-2\npoint 1:-2\n"),
        &["read fault: s\n"],
    ),
    (
        "least s --eps 0.25 --of x^2-x --boxes 2",
        Prints(1, "lower -3:-2\nupper none\n"),
        &["read fault: s\n"],
    ),
    (
        "least s --of 2*",
        Tells(2, "objective: byte 2: EndOfText\n"),
        &["read fault: s\n"],
    ),
    (
        "campaign s --eps 0.25 --keep k",
        Prints(0, SUMMARY),
        &["read fault: s\n"],
    ),
    (
        "campaign s --eps 0.25 --keep k --boxes 1",
        Prints(1, ONE_SETTLED),
        &["read fault: s\n"],
    ),
    (
        "campaign s --eps 0.25 --keep k --boxes 1001 --rounds 100",
        Tells(8, "tree limit: 0 settled\n"),
        &["read fault: s\n"],
    ),
    ("sample --seed 1 --count 2", Prints(0, SAMPLE_OF_TWO), &[]),
    ("sample --seed 1 --count 17", Tells(2, USAGE), &[]),
];
