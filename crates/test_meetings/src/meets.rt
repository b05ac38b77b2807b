//! Commands by four workers, and what is to be seen of them.
use crate::calls::{call, folder_with, stored};
use pv_cli::NoGate;
use pv_io::MemFolder;
use std::alloc::Global;
use std::sync::Wait;
use std::thread::Threads;
use std::time::{Clock, Duration};
use test_crews::{Meeting, Pace};

/// A command that is done before: its words, its status, and how what it prints begins.
type Before = (&'static str, u8, &'static str);

/// A command by four workers, who meet at a gate. It stores `four`, which is to be the same as
/// `one`, and prints the same.
#[derive(Clone, Copy)]
pub(crate) struct Meet {
    system: &'static str,
    before: &'static [Before],
    words: &'static str,
    prints: &'static str,
    /// A worker comes to the gate at its first node of so many steps or more,
    from: u32,
    /// and waits there once it settled so many of them.
    free: u64,
}

// A ring. Each of the 16 nodes with 4 steps has nodes with 6 steps and more below it.
const RING: &str =
    "Variables x in [-3,3], y in [-3,3]; Constraints x^2 + y^2 >= 1; x^2 + y^2 <= 4; end\n";

const RING_PRINTS: &str = "settled 1407 cut 703 removed 0 inner 368 small 336 open 0\n";

const RING_BY_ONE: Before = (
    "paver run s --eps 0.0625 --workers 1 --out one",
    0,
    RING_PRINTS,
);

/// All four settle at once, 6 steps deep or deeper, where leaves are settled in stages.
pub(crate) const RUN: Meet = Meet {
    system: RING,
    before: &[RING_BY_ONE],
    words: "paver run s --eps 0.0625 --workers 4 --out four",
    prints: RING_PRINTS,
    from: 6,
    free: 0,
};

/// The same in a paving of which one worker settled 100 nodes.
pub(crate) const RESUME: Meet = Meet {
    before: &[
        RING_BY_ONE,
        (
            "paver run s --eps 0.0625 --boxes 100 --workers 1 --out part",
            1,
            "settled 100 cut 54 removed 0 inner 23 small 23 open 9\n",
        ),
    ],
    words: "paver resume s part --eps 0.0625 --workers 4 --out four",
    ..RUN
};

// Six cuts of which the high half is inner, and then cuts everywhere. All nodes with more than 6
// steps lie below one node.
const LATE: &str = "Variables x in [0,64], y in [0,2]; Constraints max(x - 1, y - y) >= 0; end\n";

const LATE_PRINTS: &str = "settled 1035 cut 517 removed 0 inner 6 small 512 open 0\n";

const LATE_BY_ONE: Before = (
    "paver run s --eps 0.0625 --workers 1 --out one",
    0,
    LATE_PRINTS,
);

/// All four settle nodes below one node where stages are settled. So three of them work jobs that
/// another put out, who then waits: a stage has at most 1,100 / 16 nodes, so who settled 100 has put
/// jobs out.
pub(crate) const RUN_LATE: Meet = Meet {
    system: LATE,
    before: &[LATE_BY_ONE],
    words: "paver run s --eps 0.0625 --boxes 1100 --workers 4 --out four",
    prints: LATE_PRINTS,
    from: 7,
    free: 100,
};

/// The same in a paving of which one worker settled 5 nodes.
pub(crate) const RESUME_LATE: Meet = Meet {
    before: &[
        LATE_BY_ONE,
        (
            "paver run s --eps 0.0625 --boxes 5 --workers 1 --out part",
            1,
            "settled 5 cut 5 removed 0 inner 0 small 0 open 6\n",
        ),
    ],
    words: "paver resume s part --eps 0.0625 --boxes 1100 --workers 4 --out four",
    ..RUN_LATE
};

impl Meet {
    /// Whether four workers meet, and do as one.
    pub(crate) fn is_seen<R: Threads + Wait + Clock + Sync>(&self, rt: &R, alloc: Global) -> bool {
        self.meets(rt, alloc) == Some(true)
    }

    fn meets<R: Threads + Wait + Clock + Sync>(&self, rt: &R, alloc: Global) -> Option<bool> {
        let mut folder = prepared(rt, alloc, self.system, self.before)?;
        let gate = Meeting::new(rt, 4, self.from, self.free);
        let four = call(rt, alloc, self.words, &mut folder, &gate).ok()?;
        let is_so = gate.has_met() && four.is(0, self.prints);
        Some(is_so && are_same(alloc, &mut folder)?)
    }
}

const PART: &str = "paver run s --eps 0.015625 --boxes 10000 --workers 4 --out part";

const PART_PRINTS: &str = "settled 10000 ";

/// Whether each of four workers settles something of a tree of 10,000 nodes.
pub(crate) fn all_work<R: Threads + Wait + Clock + Sync>(rt: &R, alloc: Global) -> bool {
    lets_all_work(rt, alloc) == Some(true)
}

fn lets_all_work<R: Threads + Wait + Clock + Sync>(rt: &R, alloc: Global) -> Option<bool> {
    let mut folder = prepared(rt, alloc, LATE, &[])?;
    let gate = Pace::new(rt, 4, Duration::from_millis(10));
    let part = call(rt, alloc, PART, &mut folder, &gate).ok()?;
    Some(gate.workers() == 4 && part.is(1, PART_PRINTS))
}

const ALL_PRINTS: &str = "settled 16395 cut 8197 removed 0 inner 6 small 8192 open 0\n";

const ALL_BY_ONE: Before = (
    "paver run s --eps 0.015625 --workers 1 --out one",
    0,
    ALL_PRINTS,
);

/// Whether what four workers settle of 10,000 nodes, gone on with by four, is what one worker stores.
pub(crate) fn goes_on_as_by_one<R: Threads + Wait + Sync>(rt: &R, alloc: Global) -> Option<bool> {
    let before = [ALL_BY_ONE, (PART, 1, PART_PRINTS)];
    let mut folder = prepared(rt, alloc, LATE, &before)?;
    let words = "paver resume s part --eps 0.015625 --workers 4 --out four";
    let four = call(rt, alloc, words, &mut folder, &NoGate).ok()?;
    Some(four.is(0, ALL_PRINTS) && are_same(alloc, &mut folder)?)
}

// A folder with a system in which some commands were done. None where one of them ended otherwise.
fn prepared<R: Threads + Wait + Sync>(
    rt: &R,
    alloc: Global,
    system: &str,
    before: &[Before],
) -> Option<MemFolder> {
    let mut folder = folder_with(alloc, system).ok()?;
    for (words, status, prints) in before {
        let ended = call(rt, alloc, words, &mut folder, &NoGate).ok()?;
        if !ended.is(*status, prints) {
            return None;
        }
    }
    Some(folder)
}

// Whether `one` and `four` are the same bytes.
fn are_same(alloc: Global, folder: &mut MemFolder) -> Option<bool> {
    let one = stored(alloc, folder, "one")?;
    let four = stored(alloc, folder, "four")?;
    Some(one.as_slice() == four.as_slice())
}
