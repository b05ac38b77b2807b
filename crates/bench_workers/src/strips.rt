//! Strips of a square.
ghost use Rattle.std.specs.Prelude.{◌≡◌, ◌+◌, ◌≤◌, length, IfOk};
ghost use Rattle.pv_board.specs.Rules.{settled_in};

use pv_box::IBox;
use pv_interval::Interval;
use pv_num::{Memory, Num};
use pv_pool::NoGate;
use pv_tree::{Forgetful, NodeLimit, Paving};
use pv_workers::{Budget, pave, pave_knowing};
use std::alloc::Global;
use std::sync::Wait;
use std::thread::Threads;
use test_sample::Above;

/// What was settled.
#[derive(Drop)]
pub struct Strips {
    pub nodes: u64,
    pub tickets: u128,
}

// [0,1] in both places.
fn square(alloc: Global) -> Result<Paving, Memory>
    ensures { IfOk result (λ p. (length p.root ≡ 2) × (settled_in p.tree ≡ 0)) }
{
    let unit = Interval::new(Num::ZERO, Num::ONE).unwrap_or(Interval::ALL);
    let mut parts = Vec::new(alloc);
    parts.push(unit)?;
    parts.push(unit)?;
    Paving::open(alloc, IBox::new(parts))
}

/// Paves 2 to the power of `cuts` strips by `workers` workers, or at least 1 and at most 16 of
/// them.
pub fn pave_strips<R: Threads + Wait + Sync>(
    rt: &R,
    alloc: Global,
    cuts: u64,
    workers: u64,
) -> Result<Strips, Memory> {
    let cuts = cuts.clamp(1, 22) as u32;
    let quarter = Num::fin(1, -2).unwrap_or(Num::ZERO);
    let settler = Above::new(2, quarter, cuts, cuts + 2);
    let limit = NodeLimit::new(100_000_000).unwrap_or(NodeLimit::by_default());
    let budget = Budget {
        nodes: limit.nodes() - 1,
        limit,
        workers: workers.clamp(1, 16) as u32,
    };
    let begun = pave(rt, alloc, &settler, square(alloc)?, 1, 1, &NoGate)?;
    let opening = begun.paving;
    let before = opening.counts().settled();
    if before > 1 {
        return Err(Memory);
    }
    let forgetful = Forgetful { settler: &settler };
    let paved = pave_knowing(rt, alloc, &forgetful, opening, budget, &NoGate)?;
    Ok(Strips {
        nodes: paved.paving.counts().settled(),
        tickets: paved.spent,
    })
}
