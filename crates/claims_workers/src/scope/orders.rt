//! In which order leaves are settled.
ghost use Rattle.std.specs.Prelude.{◌≡◌, ◌+◌, ◌≤◌, length, IfOk};
ghost use Rattle.pv_board.specs.Rules.{settled_in};
ghost use Rattle.pv_scope.specs.Orders.{IsInOrder};
ghost use Rattle.pv_scope.specs.Settlings.{IsLevel};

use pv_num::Memory;
use pv_pool::Gate;
use pv_scope::{Levelled, Order, pave_in_order, settle_levels};
use pv_tree::{KnowingSettler, Paving};
use pv_workers::Budget;
use std::alloc::Global;
use std::sync::Wait;
use std::thread::Threads;

/// The pass in which it ends says how short paths of open leaves are, and how long those of settled
/// nodes.
pub fn settle_shallow<S: KnowingSettler, G: Gate>(
    alloc: Global,
    settler: &S,
    opening: Paving,
    budget: u64,
    gate: &G,
) -> Result<Levelled, Memory>
    requires dims { length opening.root ≡ S.dims settler.now }
    ensures { IfOk result (λ s. IsLevel opening.tree s.paving.tree s.pass) }
{
    settle_levels(alloc, settler, opening, budget, gate)
}

/// Leaves are settled in the order that is asked for.
pub fn settle_ordered<S: KnowingSettler + Sync, G: Gate + Sync, R: Threads + Wait + Sync>(
    rt: &R,
    alloc: Global,
    settler: &S,
    opening: Paving,
    order: Order,
    budget: Budget,
    gate: &G,
) -> Result<Paving, Memory>
where
    S::Room: Send,
    S::Known: Send,
    requires dims { length opening.root ≡ S.dims settler.now }
    requires limit { settled_in opening.tree + budget.nodes ≤ budget.limit }
    ensures { IfOk result (λ p. IsInOrder order opening.tree p.tree) }
{
    pave_in_order(rt, alloc, settler, opening, order, budget, gate)
}
