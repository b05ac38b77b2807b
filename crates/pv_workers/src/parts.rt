//! Paving part by part, so that room is made by need.
ghost use Rattle.std.specs.Prelude.{◌≡◌, ◌+◌, ◌*◌, ◌^◌, ◌<◌, ◌≤◌, length, IfOk};
ghost use Rattle.pv_tree.specs.Stages.{IsStage};
ghost use Rattle.pv_board.specs.Rules.{settled_in};
ghost use Rattle.pv_workers.specs.Pavings.{IsSpent};
ghost use Rattle.pv_board.specs.declared.told.TheConstants.{LOT_NODES};

use crate::budget::Budget;
use crate::paving::{Paved, by_crew, learn_paved};
use pv_num::Memory;
use pv_pool::Gate;
use pv_tree::{KnowingSettler, Paving};
use std::alloc::Global;
use std::sync::Wait;
use std::thread::Threads;

// A board makes room for its whole budget at once, so a large budget is spent in parts: a part has
// as many settlings as the paving has settled nodes, and at least so many. At the end of each part
// the workers run out of work, so there are to be few.
const LEAST_PART: u64 = 1_000_000;

/// Settles by crews, each on a board of its own for a part of the budget.
pub(crate) fn by_parts<S: KnowingSettler + Sync, G: Gate + Sync, R: Threads + Wait + Sync>(
    rt: &R,
    alloc: Global,
    settler: &S,
    opening: Paving,
    budget: Budget,
    gate: &G,
) -> Result<Paved, Memory>
where
    S::Room: Send,
    S::Known: Send,
    requires dims { length opening.root ≡ S.dims settler.now }
    requires limit { settled_in opening.tree + budget.nodes ≤ budget.limit }
    ensures root { IfOk result (λ p. p.paving.root ≡ opening.root) }
    ensures stage { IfOk result (λ p.
        IsStage (S.settle_of settler.now)
        (S.depth_of settler.now) opening.root opening.tree p.paving.tree) }
    ensures paved { IfOk result (λ p. IsSpent budget.nodes opening.tree p.paving.tree) }
    ensures spent { IfOk result (λ p.
        settled_in p.paving.tree ≤ settled_in opening.tree + LOT_NODES * p.spent) }
    ensures least { IfOk result (λ p.
        settled_in opening.tree + p.spent ≤ settled_in p.paving.tree) }
{
    let _places = opening.dims();
    let _most = budget.limit.nodes();
    let _depth = settler.depth();
    let mut paved = Paved {
        paving: opening,
        spent: 0,
    };
    let mut left = budget.nodes;
    for _round in 0..budget.nodes {
        let nodes = part_of(&paved.paving, left);
        let part = Budget {
            nodes,
            limit: budget.limit,
            workers: budget.workers,
        };
        let next = go_on(rt, alloc, settler, paved, part, gate)?;
        learn_paved(&next.paving, settler);
        left -= nodes;
        if left == 0 {
            return Ok(next);
        }
        if next.paving.is_closed() {
            return Ok(next);
        }
        paved = next;
    }
    Ok(paved)
}

// How many settlings the next part has.
fn part_of(paving: &Paving, left: u64) -> u64
    requires { 1 ≤ left }
    ensures some { 1 ≤ result }
    ensures few { result ≤ left }
{
    left.min(paving.counts().settled().max(LEAST_PART))
}

// Spends one part on what was paved so far.
fn go_on<S: KnowingSettler + Sync, G: Gate + Sync, R: Threads + Wait + Sync>(
    rt: &R,
    alloc: Global,
    settler: &S,
    before: Paved,
    part: Budget,
    gate: &G,
) -> Result<Paved, Memory>
where
    S::Room: Send,
    S::Known: Send,
    requires dims { length before.paving.root ≡ S.dims settler.now }
    requires limit { settled_in before.paving.tree + part.nodes ≤ part.limit }
    requires low { before.spent + 2 ^ 84 < 2 ^ 128 }
    ensures root { IfOk result (λ p. p.paving.root ≡ before.paving.root) }
    ensures stage { IfOk result (λ p.
        IsStage (S.settle_of settler.now)
        (S.depth_of settler.now) before.paving.root before.paving.tree p.paving.tree) }
    ensures paved { IfOk result (λ p. IsSpent part.nodes before.paving.tree p.paving.tree) }
    ensures spent { IfOk result (λ p. settled_in p.paving.tree + LOT_NODES * before.spent ≤
        settled_in before.paving.tree + LOT_NODES * p.spent) }
    ensures least { IfOk result (λ p. settled_in before.paving.tree + p.spent ≤
        settled_in p.paving.tree + before.spent) }
    ensures low { IfOk result (λ p. p.spent ≤ before.spent + 2 ^ 84) }
{
    let Paved { paving, spent } = before;
    let next = by_crew(rt, alloc, settler, paving, part, gate)?;
    Ok(Paved {
        paving: next.paving,
        spent: spent + next.spent,
    })
}
