//! What the caller settles once all workers were joined.
ghost use Rattle.std.specs.Prelude.{◌≡◌, ◌+◌, ◌<◌, ◌≤◌, true, false, length, IsSome, IfOk, OnOk, OnErr};
ghost use Rattle.pv_tree.specs.Trees.{subtree};
ghost use Rattle.pv_tree.specs.Stages.{IsStage};
ghost use Rattle.pv_board.specs.Marks.{issued};
ghost use Rattle.pv_board.specs.Rules.{settled_in};
ghost use Rattle.pv_board.specs.Events.{is_current, IsDry, IsOver};
ghost use Rattle.pv_board.specs.Tallies.{one_if};
ghost use Rattle.pv_workers.specs.Boards.{IsRecalled};
ghost use Rattle.pv_workers.specs.Pavings.{IsSpent};

use crate::ruled::Ruled;
use pv_board::{Board, Naming, Ticket};
use pv_box::IBox;
use pv_num::Memory;
use pv_pool::Gate;
use pv_tree::{Paving, Settler};
use std::alloc::Global;

/// Recalls what is issued, and then takes a leaf, settles it and recalls in turn, until nothing can
/// be taken. It answers how many leaves it settled. After a worker was told that all is done there
/// are none.
///
/// # Errors
///
/// Want of memory.
pub(crate) fn settle_rest<N: Naming, S: Settler, G: Gate>(
    alloc: Global,
    ruled: &Ruled<N, S>,
    gate: &G,
    board: &mut Board<N>,
    scratch: &mut IBox,
) -> Result<u64, Memory>
    requires settled { settled_in board.old.tree ≡ settled_in N.opening + board.old.used }
    requires places { length scratch.old ≡ N.dims }
    ensures used { IfOk result (λ own. board.new.used ≡ board.old.used + own) }
    ensures recalled { OnOk result (IsRecalled N.opening board.new) }
    ensures over { OnOk result (IsOver board.new) }
{
    board.recall();
    let left = board.left();
    for settled in 0..left {
        if !settle_one(alloc, ruled, gate, board, scratch)? {
            return Ok(settled);
        }
    }
    let _used = board.used();
    Ok(left)
}

// Takes a leaf, settles it and takes back what that issued. Answers false where no leaf can be
// taken.
fn settle_one<N: Naming, S: Settler, G: Gate>(
    alloc: Global,
    ruled: &Ruled<N, S>,
    gate: &G,
    board: &mut Board<N>,
    scratch: &mut IBox,
) -> Result<bool, Memory>
    requires recalled { IsRecalled N.opening board.old }
    requires places { length scratch.old ≡ N.dims }
    ensures recalled { OnOk result (IsRecalled N.opening board.new) }
    ensures used { IfOk result (λ more. board.new.used ≡ board.old.used + one_if more) }
    ensures dry { IfOk result (λ more. more ≡ false → IsDry board.new) }
    ensures places { length scratch.new ≡ N.dims }
{
    let Some(ticket) = board.take() else {
        return Ok(false);
    };
    settle_taken(alloc, ruled, gate, board, ticket, scratch)?;
    board.recall();
    Ok(true)
}

// Settles the leaf of a current ticket.
fn settle_taken<N: Naming, S: Settler, G: Gate>(
    alloc: Global,
    ruled: &Ruled<N, S>,
    gate: &G,
    board: &mut Board<N>,
    ticket: Ticket,
    scratch: &mut IBox,
) -> Result<(), Memory>
    requires current { is_current board.old ticket ≡ true }
    requires there { IsSome (subtree board.old.tree ticket.path) }
    requires places { length scratch.old ≡ N.dims }
    ensures used { OnOk result (board.new.used ≡ board.old.used + 1) }
    ensures settled { OnOk result (settled_in board.new.tree ≡ settled_in board.old.tree + 1) }
    ensures places { length scratch.new ≡ N.dims }
{
    let _used = board.used();
    if !board.box_of(&ticket, scratch) {
        unreachable!()
    }
    let path = ticket.path();
    gate.enter(0, path);
    let outcome = ruled.settle(alloc, scratch, path)?;
    let _children = board.settle(ticket, outcome);
    Ok(())
}

/// The paving of a board on which nothing can be taken.
///
/// # Errors
///
/// Want of memory, which stopped the board while a leaf was open and a part of the budget left.
pub(crate) fn close<N: Naming>(board: Board<N>) -> Result<Paving, Memory>
    requires recalled { IsRecalled N.opening board }
    requires over { IsOver board }
    ensures root { IfOk result (λ p. p.root ≡ N.root) }
    ensures stage { IfOk result (λ p. IsStage N.rule N.depth N.root N.opening p.tree) }
    ensures spent { IfOk result (λ p. IsSpent N.budget N.opening p.tree) }
    ensures settled { IfOk result (λ p. settled_in p.tree ≡ settled_in N.opening + board.used) }
    ensures stopped { OnErr result (board.stopped ≡ true) }
{
    let left = board.left();
    let paving = board.into_paving();
    if left == 0 {
        return Ok(paving);
    }
    match paving.first_open() {
        None => Ok(paving),
        Some(_) => Err(Memory),
    }
}
