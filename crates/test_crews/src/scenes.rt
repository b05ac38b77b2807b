//! What is to be seen of four workers, whatever the machine does beside them.
use crate::gates::{Meeting, Pace};
use crate::pavings::{Poor, late_strips, square, strips, thin};
use pv_pool::NoGate;
use pv_tree::{Forgetful, NodeLimit, Paving};
use pv_workers::{Budget, pave, pave_knowing};
use std::alloc::Global;
use std::sync::Wait;
use std::thread::Threads;
use std::time::{Clock, Duration};

/// What is to be seen.
#[derive(Clone, Copy)]
pub(crate) enum Scene {
    /// All four settle at once, 6 steps deep or deeper, where leaves are settled in stages.
    AllAtOnce,
    /// The same in a paving that one worker began.
    AllGoOn,
    /// All four settle nodes below one node where stages are settled. So three of them work jobs
    /// that another put out, who then waits.
    HandedOver,
    /// All four settle something of a tree of 10,000 nodes.
    AllWork,
    /// Where one wants memory, the others end their stages and begin no more.
    Ended,
}

impl Scene {
    /// Whether it is seen in one paving.
    pub(crate) fn is_seen<R: Threads + Wait + Clock + Sync>(self, rt: &R, alloc: Global) -> bool {
        let seen = match self {
            Scene::AllAtOnce => settles_at_once(rt, alloc),
            Scene::AllGoOn => goes_on_at_once(rt, alloc),
            Scene::HandedOver => hands_over(rt, alloc),
            Scene::AllWork => lets_all_work(rt, alloc),
            Scene::Ended => ends(rt, alloc),
        };
        seen == Some(true)
    }
}

// Whether a paving has so many settled nodes and open leaves.
fn has(paving: &Paving, settled: u64, open_leaves: u64) -> bool {
    let counts = paving.counts();
    counts.settled() == settled && counts.open_leaves == open_leaves
}

fn settles_at_once<R: Threads + Wait + Clock + Sync>(rt: &R, alloc: Global) -> Option<bool> {
    let gate = Meeting::new(rt, 4, 6, 0);
    let paved = pave(rt, alloc, &strips(9), square(alloc).ok()?, 2000, 4, &gate).ok()?;
    Some(gate.has_met() && has(&paved.paving, 1023, 0))
}

fn goes_on_at_once<R: Threads + Wait + Clock + Sync>(rt: &R, alloc: Global) -> Option<bool> {
    let strips = strips(9);
    let settler = Forgetful { settler: &strips };
    let limit = NodeLimit::by_default();
    let first = Budget {
        nodes: 100,
        limit,
        workers: 1,
    };
    let second = Budget {
        nodes: 2000,
        limit,
        workers: 4,
    };
    let opening = square(alloc).ok()?;
    let begun = pave_knowing(rt, alloc, &settler, opening, first, &NoGate).ok()?;
    let opening = begun.paving;
    if opening.dims() != 2 || opening.counts().settled() != 100 {
        return None;
    }
    let gate = Meeting::new(rt, 4, 6, 0);
    let paved = pave_knowing(rt, alloc, &settler, opening, second, &gate).ok()?;
    Some(gate.has_met() && has(&paved.paving, 1023, 0))
}

// A stage has at most 1,000 / 16 nodes, so who settled 100 has put jobs out.
fn hands_over<R: Threads + Wait + Clock + Sync>(rt: &R, alloc: Global) -> Option<bool> {
    let gate = Meeting::new(rt, 4, 7, 100);
    let paved = pave(
        rt,
        alloc,
        &late_strips(9),
        thin(alloc).ok()?,
        1000,
        4,
        &gate,
    )
    .ok()?;
    Some(gate.has_met() && paved.paving.counts().settled() == 1000)
}

fn lets_all_work<R: Threads + Wait + Clock + Sync>(rt: &R, alloc: Global) -> Option<bool> {
    let gate = Pace::new(rt, 4, Duration::from_millis(10));
    let paved = pave(
        rt,
        alloc,
        &late_strips(13),
        thin(alloc).ok()?,
        10_000,
        4,
        &gate,
    )
    .ok()?;
    Some(gate.workers() == 4 && paved.paving.counts().settled() == 10_000)
}

// A stage has at most 2,000 / 16 nodes. Each of the other three is in one, and further jobs lie on
// all deques.
fn ends<R: Threads + Wait + Clock + Sync>(rt: &R, alloc: Global) -> Option<bool> {
    let gate = Meeting::new(rt, 4, 6, 0);
    let settler = Poor::new(strips(12), rt, 1000);
    let paved = pave(rt, alloc, &settler, square(alloc).ok()?, 2000, 4, &gate);
    Some(paved.is_err() && gate.has_met() && settler.late() <= 3 * 125)
}
