//! How tickets are counted.
ghost use Rattle.std.specs.Prelude.{◌≡◌, ◌+◌, ◌*◌, ◌≤◌, length, IfOk};
ghost use Rattle.pv_board.specs.Rules.{settled_in};
ghost use Rattle.pv_board.specs.declared.told.TheConstants.{LOT_NODES};

use pv_num::Memory;
use pv_pool::Gate;
use pv_tree::{KnowingSettler, Paving};
use pv_workers::{Budget, Paved, pave_knowing};
use std::alloc::Global;
use std::sync::Wait;
use std::thread::Threads;

/// A ticket counts for each lot of nodes that it settled, and one that settled none doesn't count.
pub fn count_tickets<S: KnowingSettler + Sync, G: Gate + Sync, R: Threads + Wait + Sync>(
    rt: &R,
    alloc: Global,
    settler: &S,
    opening: Paving,
    budget: Budget,
    gate: &G,
) -> Result<Paved, Memory>
where
    S::Room: Send,
    S::Known: Send,
    requires dims { length opening.root ≡ S.dims settler.now }
    requires limit { settled_in opening.tree + budget.nodes ≤ budget.limit }
    ensures spent { IfOk result (λ p.
        settled_in p.paving.tree ≤ settled_in opening.tree + LOT_NODES * p.spent) }
    ensures least { IfOk result (λ p.
        settled_in opening.tree + p.spent ≤ settled_in p.paving.tree) }
{
    pave_knowing(rt, alloc, settler, opening, budget, gate)
}
