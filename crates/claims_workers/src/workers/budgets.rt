//! How much is settled.
ghost use Rattle.std.specs.Prelude.{◌≡◌, ◌+◌, ◌≤◌, length, IfOk};
ghost use Rattle.pv_board.specs.Rules.{settled_in};
ghost use Rattle.pv_workers.specs.Pavings.{IsPaved};

use pv_num::Memory;
use pv_pool::Gate;
use pv_tree::{KnowingSettler, Paving};
use pv_workers::{Budget, Paved, pave_knowing};
use std::alloc::Global;
use std::sync::Wait;
use std::thread::Threads;

/// Where a leaf is left open the whole budget was spent, and none is where it is enough.
pub fn spend<S: KnowingSettler + Sync, G: Gate + Sync, R: Threads + Wait + Sync>(
    rt: &R,
    alloc: Global,
    settler: &S,
    opening: Paving,
    budget: Budget,
    gate: &G,
) -> Result<Paved, Memory>
where
    S::Room: Send,
    S::Known: Send,
    requires dims { length opening.root ≡ S.dims settler.now }
    requires limit { settled_in opening.tree + budget.nodes ≤ budget.limit }
    ensures { IfOk result (λ p.
        IsPaved (S.settle_of settler.now)
        (S.depth_of settler.now) opening.root opening.tree budget.nodes p.paving.tree) }
{
    pave_knowing(rt, alloc, settler, opening, budget, gate)
}
