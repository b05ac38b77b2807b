//! By which rule leaves are settled.
ghost use Rattle.std.specs.Prelude.{◌≡◌, ◌+◌, ◌≤◌, length, IfOk};
ghost use Rattle.pv_tree.specs.Trees.{Tree, Paves};
ghost use Rattle.pv_tree.specs.Stages.{IsStage};
ghost use Rattle.pv_board.specs.Rules.{settled_in};
ghost use Rattle.pv_tree.specs.declared.limit.TheConstants.{LEAST_LIMIT, MOST_WORKERS};

use pv_num::Memory;
use pv_pool::Gate;
use pv_tree::{KnowingSettler, Paving, Settler};
use pv_workers::{Budget, Paved, pave, pave_knowing};
use std::alloc::Global;
use std::sync::Wait;
use std::thread::Threads;

/// Each leaf is settled as the settler's rule says of its box and its depth.
pub fn pave_by_rule<S: Settler + Sync, G: Gate + Sync, R: Threads + Wait + Sync>(
    rt: &R,
    alloc: Global,
    settler: &S,
    opening: Paving,
    budget: u64,
    workers: u32,
    gate: &G,
) -> Result<Paved, Memory>
    requires dims { length opening.root ≡ S.dims settler.now }
    requires some { 1 ≤ budget }
    requires few { budget ≤ LEAST_LIMIT }
    requires limit { settled_in opening.tree + budget ≤ LEAST_LIMIT }
    requires one { 1 ≤ workers }
    requires sixteen { workers ≤ MOST_WORKERS }
    ensures { IfOk result (λ p. (earlier : Tree) → Paves opening.root earlier →
        IsStage (S.settle_of settler.now)
        (S.depth_of settler.now) opening.root earlier opening.tree →
        IsStage (S.settle_of settler.now)
        (S.depth_of settler.now) opening.root earlier p.paving.tree) }
{
    pave(rt, alloc, settler, opening, budget, workers, gate)
}

/// So it is by a settler that knows.
pub fn pave_by_known<S: KnowingSettler + Sync, G: Gate + Sync, R: Threads + Wait + Sync>(
    rt: &R,
    alloc: Global,
    settler: &S,
    opening: Paving,
    budget: Budget,
    gate: &G,
) -> Result<Paved, Memory>
where
    S::Room: Send,
    S::Known: Send,
    requires dims { length opening.root ≡ S.dims settler.now }
    requires limit { settled_in opening.tree + budget.nodes ≤ budget.limit }
    ensures { IfOk result (λ p. (earlier : Tree) → Paves opening.root earlier →
        IsStage (S.settle_of settler.now)
        (S.depth_of settler.now) opening.root earlier opening.tree →
        IsStage (S.settle_of settler.now)
        (S.depth_of settler.now) opening.root earlier p.paving.tree) }
{
    pave_knowing(rt, alloc, settler, opening, budget, gate)
}
