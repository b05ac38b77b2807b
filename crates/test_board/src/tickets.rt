//! Worked boards over the box [0,1], with the points from 1/4 on as the set.
ghost use Rattle.std.specs.Prelude.{◌≡◌, ◌-◌, ◌≤◌, length, IfOk};
ghost use Rattle.pv_board.specs.Marks.{issued};
ghost use Rattle.pv_board.specs.Rules.{IsFitting, settled_in};

use pv_board::{Board, Look, Naming, Settled, Shared, Ticket};
use pv_box::IBox;
use pv_interval::Interval;
use pv_num::{Memory, Num};
use pv_tree::{Paving, Settler};
use std::alloc::Global;
use std::marker::Brand;
use std::sync::Wait;
use std::sync::ledger::Blank;
use std::test::Fail;
use std::thread::{Threads, join};
use test_sample::Above;

/// The box [0,1].
pub(crate) fn unit_box(alloc: Global) -> Result<IBox, Memory>
    ensures { IfOk result (λ b. length b ≡ 1) }
{
    let mut parts = Vec::new(alloc);
    parts.push(Interval::new(Num::ZERO, Num::ONE).unwrap_or(Interval::ALL))?;
    Ok(IBox::new(parts))
}

/// Settles a ticket's leaf as a settler does.
pub(crate) fn settle_by<N: Naming, S: Settler>(
    alloc: Global,
    settler: &S,
    board: &mut Board<N>,
    ticket: Ticket,
    scratch: &mut IBox,
) -> Result<Settled, Memory>
    requires rule { N.rule ≡ S.settle_of settler.now }
    requires depth { N.depth ≡ S.depth_of settler.now }
    requires dims { N.dims ≡ S.dims settler.now }
    requires scratch { length scratch.old ≡ N.dims }
    ensures { length scratch.new ≡ N.dims }
{
    let _used = board.used();
    if !board.box_of(&ticket, scratch) {
        return Err(Memory);
    }
    let path = ticket.path();
    let steps = path.len();
    let cuts_left = settler.depth().saturating_sub(steps);
    let outcome = settler.settle(alloc, scratch, cuts_left, steps)?;
    Ok(board.settle(ticket, outcome))
}

/// Whether a board has these numbers.
pub(crate) fn has<N: Naming>(board: &Board<N>, used: u64, issued: u64, left: u64) -> bool {
    board.used() == used && board.issued() == issued && board.left() == left
}

/// Takes the root, cuts it, gives its low child back and settles its high child.
fn first_tickets<N: Naming, S: Settler>(
    alloc: Global,
    settler: &S,
    board: &mut Board<N>,
    scratch: &mut IBox,
) -> Result<bool, Memory>
    requires rule { N.rule ≡ S.settle_of settler.now }
    requires depth { N.depth ≡ S.depth_of settler.now }
    requires dims { N.dims ≡ S.dims settler.now }
    requires scratch { length scratch.old ≡ N.dims }
{
    let Some(root) = board.take() else {
        return Ok(false);
    };
    let taken = has(board, 0, 1, 4) && board.take().is_none();
    let Settled { fresh, low, high } = settle_by(alloc, settler, board, root, scratch)?;
    let cuts = fresh && has(board, 1, 2, 2);
    let Some(low) = low else {
        return Ok(false);
    };
    let Some(high) = high else {
        return Ok(false);
    };
    board.give_back(low);
    let back = has(board, 1, 1, 3);
    let Settled { fresh, low, high } = settle_by(alloc, settler, board, high, scratch)?;
    let ends = fresh && low.is_none() && high.is_none();
    Ok(taken && cuts && back && ends && has(board, 2, 0, 3))
}

/// Takes a leaf, recalls it, and hands the ticket in again; then stops.
fn last_tickets<N: Naming>(board: &mut Board<N>) -> bool {
    let Some(mut stale) = board.take() else {
        return false;
    };
    let extended = stale.grant() == 0 && board.extend(&mut stale, 1) == 1;
    let granted = has(board, 2, 1, 1);
    board.recall();
    let recalled = has(board, 2, 0, 3);
    board.give_back(stale);
    let same = has(board, 2, 0, 3);
    board.stop();
    let stopped = board.take().is_none();
    let done = match board.look(0) {
        Look::Done => true,
        _ => false,
    };
    extended && granted && recalled && same && stopped && done
}

/// A board with a budget of 5 on an opening.
fn works<N: Naming, S: Settler>(
    alloc: Global,
    settler: &S,
    opening: Paving,
    scratch: &mut IBox,
) -> Result<bool, Memory>
    requires rule { N.rule ≡ S.settle_of settler.now }
    requires depth { N.depth ≡ S.depth_of settler.now }
    requires dims { N.dims ≡ S.dims settler.now }
    requires fits { IsFitting N.rule N.depth N.dims }
    requires root { opening.root ≡ N.root }
    requires tree { opening.tree ≡ N.opening }
    requires budget { N.budget ≡ 5 }
    requires limit { N.limit ≡ 100000 }
    requires places { length N.root ≡ N.dims }
    requires scratch { length scratch.old ≡ N.dims }
{
    let mut board: Board<N> = match Board::open(alloc, opening, 5) {
        Ok(board) => board,
        Err(_) => return Ok(false),
    };
    let first = first_tickets(alloc, settler, &mut board, scratch)?;
    let last = last_tickets(&mut board);
    Ok(first && last && board.counts().settled() == 2)
}

/// The same with the settler's own rule.
fn works_with<S: Settler>(
    alloc: Global,
    settler: &S,
    opening: Paving,
    scratch: &mut IBox,
) -> Result<bool, Memory>
    requires root { length opening.root ≡ S.dims settler.now }
    requires scratch { length scratch.old ≡ S.dims settler.now }
{
    works::<Brand, S>(alloc, settler, opening, scratch)
}

/// Two threads use a board at once, and nothing is settled.
fn shares<N: Naming + Send + Sync, R: Threads + Wait + Sync>(
    rt: &R,
    board: Board<N>,
    settlings: Blank,
    endings: Blank,
) -> bool
    requires idle { issued board.marks ≡ 0 }
    requires used { board.used ≡ 0 }
    requires none_added { settled_in board.tree ≡ settled_in N.opening }
    requires settlings { (settlings.name ≡ N.settlings) × (settlings.parts ≡ 32) }
    requires endings { (endings.name ≡ N.endings) × (endings.parts ≡ 32) }
{
    let (shared, told) = Shared::new(board, settlings, endings);
    let both = &shared;
    join(rt, || both.announce(rt), || both.stop(rt));
    let board = shared.into_board(told);
    board.used() == 0
}

/// A board on an opening, shared.
fn opens_shared<N: Naming + Send + Sync, S: Settler, R: Threads + Wait + Sync>(
    rt: &R,
    alloc: Global,
    settler: &S,
    opening: Paving,
    settlings: Blank,
    endings: Blank,
) -> bool
    requires fits { IsFitting N.rule N.depth N.dims }
    requires root { opening.root ≡ N.root }
    requires tree { opening.tree ≡ N.opening }
    requires budget { N.budget ≡ 5 }
    requires limit { N.limit ≡ 100000 }
    requires places { length N.root ≡ N.dims }
    requires settlings { (settlings.name ≡ N.settlings) × (settlings.parts ≡ 32) }
    requires endings { (endings.name ≡ N.endings) × (endings.parts ≡ 32) }
{
    let _depth = settler.depth();
    match Board::<N>::open(alloc, opening, 5) {
        Ok(board) => shares(rt, board, settlings, endings),
        Err(_) => false,
    }
}

/// The same with a settler's rule.
fn shared_with<S: Settler, R: Threads + Wait + Sync>(
    rt: &R,
    alloc: Global,
    settler: &S,
    opening: Paving,
    settlings: Blank,
    endings: Blank,
) -> bool
    requires root { length opening.root ≡ S.dims settler.now }
    requires parts { (settlings.parts ≡ 32) × (endings.parts ≡ 32) }
{
    opens_shared::<Brand, S, R>(rt, alloc, settler, opening, settlings, endings)
}

#[test]
fn threads_share_a_board(rt: HostRuntime) -> Result<(), Fail> {
    let alloc = rt.alloc();
    let settler = Above::new(1, Num::fin(1, -2).unwrap_or(Num::ZERO), 0, 2);
    let opening = Paving::open(alloc, unit_box(alloc)?)?;
    assert!(rt;
        shared_with(
            &rt,
            alloc,
            &settler,
            opening,
            Blank::new(32),
            Blank::new(32)
        )
    );
    Ok(())
}

#[test]
fn tickets_come_and_go(rt: HostRuntime) -> Result<(), Fail> {
    let alloc = rt.alloc();
    let settler = Above::new(1, Num::fin(1, -2).unwrap_or(Num::ZERO), 0, 2);
    let mut scratch = unit_box(alloc)?;
    let opening = Paving::open(alloc, unit_box(alloc)?)?;
    assert!(rt; works_with(alloc, &settler, opening, &mut scratch)?);
    Ok(())
}
