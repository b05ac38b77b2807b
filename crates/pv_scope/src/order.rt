//! Settling an opening's open leaves in an order.
ghost use Rattle.std.specs.Prelude.{◌≡◌, ◌+◌, ◌≤◌, length, IfOk};
ghost use Rattle.pv_tree.specs.Trees.{Tree, Paves};
ghost use Rattle.pv_tree.specs.Stages.{IsStage};
ghost use Rattle.pv_board.specs.Rules.{settled_in};
ghost use Rattle.pv_workers.specs.Pavings.{IsPaved};
ghost use Rattle.pv_scope.specs.Orders.{IsInOrder};

use crate::levels::settle_levels;
use pv_num::Memory;
use pv_pool::Gate;
use pv_tree::{KnowingSettler, Paving};
use pv_workers::{Budget, pave_knowing};
use std::alloc::Global;
use std::sync::Wait;
use std::thread::Threads;

/// In which order open leaves are settled.
#[derive(Clone, Copy, Debug, PartialEq, Eq)]
pub enum Order {
    /// What comes of a leaf is settled before the next leaf, by all workers.
    Depth,
    /// Shallow leaves are settled first, in passes and by one worker.
    Level,
}

/// Settles an opening's open leaves in an order, by 1 to 16 workers, until none is left or the budget
/// is spent. Where none is left the paving is the same in each order and for any number of workers.
/// By levels one worker does it, however many there may be. The gate is entered with the number of
/// the worker and the path of the leaf before each settling.
///
/// # Errors
///
/// Want of memory.
pub fn pave_in_order<S: KnowingSettler + Sync, G: Gate + Sync, R: Threads + Wait + Sync>(
    rt: &R,
    alloc: Global,
    settler: &S,
    opening: Paving,
    order: Order,
    budget: Budget,
    gate: &G,
) -> Result<Paving, Memory>
where
    S::Room: Send,
    S::Known: Send,
    requires dims { length opening.root ≡ S.dims settler.now }
    requires limit { settled_in opening.tree + budget.nodes ≤ budget.limit }
    ensures root { IfOk result (λ p. p.root ≡ opening.root) }
    ensures stages { IfOk result (λ p. (earlier : Tree) → Paves opening.root earlier →
        IsStage (S.settle_of settler.now)
        (S.depth_of settler.now) opening.root earlier opening.tree →
        IsStage (S.settle_of settler.now)
        (S.depth_of settler.now) opening.root earlier p.tree) }
    ensures paved { IfOk result (λ p.
        IsPaved (S.settle_of settler.now)
        (S.depth_of settler.now) opening.root opening.tree budget.nodes p.tree) }
    ensures ordered { IfOk result (λ p. IsInOrder order opening.tree p.tree) }
{
    match order {
        Order::Depth => {
            let paved = pave_knowing(rt, alloc, settler, opening, budget, gate)?;
            Ok(paved.paving)
        }
        Order::Level => {
            let levelled = settle_levels(alloc, settler, opening, budget.nodes, gate)?;
            Ok(levelled.paving)
        }
    }
}
