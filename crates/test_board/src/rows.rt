//! Worked boards over the box [0,1]: a stop, a budget of one, a recall, and an opening with too
//! many settled nodes.
ghost use Rattle.std.specs.Prelude.{◌≡◌, ◌≤◌, length};
ghost use Rattle.pv_board.specs.Rules.{IsFitting};

use crate::tickets::{has, settle_by, unit_box};
use pv_board::{Board, Look, Naming, OpenRefused, Settled};
use pv_box::IBox;
use pv_num::{Memory, Num};
use pv_tree::{NodeLimit, Paving, Settler};
use std::alloc::Global;
use std::marker::Brand;
use std::test::Fail;
use test_sample::{Above, settle_first};

/// Which worked board is played.
#[derive(Clone, Copy)]
enum Row {
    Stopped,
    OneUnit,
    Recalled,
}

/// Stops before anything is issued.
fn stopped<N: Naming>(board: &mut Board<N>) -> bool {
    board.stop();
    if board.take().is_some() {
        return false;
    }
    match board.look(0) {
        Look::Done => true,
        _ => false,
    }
}

/// Takes the root with the only unit, and cuts it: no unit is left for its children.
fn one_unit<N: Naming, S: Settler>(
    alloc: Global,
    settler: &S,
    board: &mut Board<N>,
    scratch: &mut IBox,
) -> Result<bool, Memory>
    requires rule { N.rule ≡ S.settle_of settler.now }
    requires depth { N.depth ≡ S.depth_of settler.now }
    requires dims { N.dims ≡ S.dims settler.now }
    requires scratch { length scratch.old ≡ N.dims }
{
    let Some(root) = board.take() else {
        return Ok(false);
    };
    let none_left = board.take().is_none();
    let Settled { fresh, low, high } = settle_by(alloc, settler, board, root, scratch)?;
    Ok(none_left && fresh && low.is_none() && high.is_none() && has(board, 1, 0, 0))
}

/// Settles with a ticket that was recalled.
fn recalled<N: Naming, S: Settler>(
    alloc: Global,
    settler: &S,
    board: &mut Board<N>,
    scratch: &mut IBox,
) -> Result<bool, Memory>
    requires rule { N.rule ≡ S.settle_of settler.now }
    requires depth { N.depth ≡ S.depth_of settler.now }
    requires dims { N.dims ≡ S.dims settler.now }
    requires scratch { length scratch.old ≡ N.dims }
{
    let Some(root) = board.take() else {
        return Ok(false);
    };
    board.recall();
    let back = has(board, 0, 0, 5);
    let Settled { fresh, low, high } = settle_by(alloc, settler, board, root, scratch)?;
    let stale = !fresh && low.is_none() && high.is_none();
    Ok(back && stale && has(board, 0, 0, 5) && board.counts().settled() == 0)
}

/// Plays one of the rows on a board.
fn plays<N: Naming, S: Settler>(
    alloc: Global,
    settler: &S,
    board: &mut Board<N>,
    row: Row,
    scratch: &mut IBox,
) -> Result<bool, Memory>
    requires rule { N.rule ≡ S.settle_of settler.now }
    requires depth { N.depth ≡ S.depth_of settler.now }
    requires dims { N.dims ≡ S.dims settler.now }
    requires scratch { length scratch.old ≡ N.dims }
{
    match row {
        Row::Stopped => Ok(stopped(board)),
        Row::OneUnit => one_unit(alloc, settler, board, scratch),
        Row::Recalled => recalled(alloc, settler, board, scratch),
    }
}

/// Opens a board and plays a row on it.
fn opens<N: Naming, S: Settler>(
    alloc: Global,
    settler: &S,
    opening: Paving,
    budget: u64,
    row: Row,
    scratch: &mut IBox,
) -> Result<bool, Memory>
    requires rule { N.rule ≡ S.settle_of settler.now }
    requires depth { N.depth ≡ S.depth_of settler.now }
    requires dims { N.dims ≡ S.dims settler.now }
    requires fits { IsFitting N.rule N.depth N.dims }
    requires root { opening.root ≡ N.root }
    requires tree { opening.tree ≡ N.opening }
    requires budget { budget ≡ N.budget }
    requires limit { N.limit ≡ 100000 }
    requires some { 1 ≤ budget }
    requires few { budget ≤ 100000 }
    requires places { length N.root ≡ N.dims }
    requires scratch { length scratch.old ≡ N.dims }
{
    match Board::<N>::open(alloc, opening, budget) {
        Ok(board) => {
            let mut board = board;
            plays(alloc, settler, &mut board, row, scratch)
        }
        Err(_) => Ok(false),
    }
}

/// The same with the settler's own rule.
fn opens_with<S: Settler>(
    alloc: Global,
    settler: &S,
    opening: Paving,
    budget: u64,
    row: Row,
    scratch: &mut IBox,
) -> Result<bool, Memory>
    requires root { length opening.root ≡ S.dims settler.now }
    requires some { 1 ≤ budget }
    requires few { budget ≤ 100000 }
    requires scratch { length scratch.old ≡ S.dims settler.now }
{
    opens::<Brand, S>(alloc, settler, opening, budget, row, scratch)
}

/// Whether a budget is refused that is too much beside the opening's settled nodes, and the opening
/// handed back.
fn refuses<N: Naming, S: Settler>(
    alloc: Global,
    settler: &S,
    opening: Paving,
    budget: u64,
    limit: NodeLimit,
    settled: u64,
) -> bool
    requires fits { IsFitting N.rule N.depth N.dims }
    requires root { opening.root ≡ N.root }
    requires tree { opening.tree ≡ N.opening }
    requires budget { budget ≡ N.budget }
    requires limit { limit ≡ N.limit }
    requires some { 1 ≤ budget }
    requires few { budget ≤ limit }
    requires places { length N.root ≡ N.dims }
{
    let _depth = settler.depth();
    match Board::<N>::open_within(alloc, opening, budget, limit) {
        Ok(_) => false,
        Err(OpenRefused::Memory(_)) => false,
        Err(
            OpenRefused::TreeLimit {
                settled: found,
                opening,
            },
        ) => found == settled && opening.counts().settled() == settled,
    }
}

/// The same with a settler's rule.
fn refuses_with<S: Settler>(
    alloc: Global,
    settler: &S,
    opening: Paving,
    budget: u64,
    limit: NodeLimit,
    settled: u64,
) -> bool
    requires root { length opening.root ≡ S.dims settler.now }
    requires some { 1 ≤ budget }
    requires few { budget ≤ limit }
{
    refuses::<Brand, S>(alloc, settler, opening, budget, limit, settled)
}

/// Cuts the root of one board, and asks another board for the low child's box.
fn strangers<N: Naming, S: Settler>(
    alloc: Global,
    settler: &S,
    board: &mut Board<N>,
    other: &Board<N>,
    scratch: &mut IBox,
) -> Result<bool, Memory>
    requires rule { N.rule ≡ S.settle_of settler.now }
    requires depth { N.depth ≡ S.depth_of settler.now }
    requires dims { N.dims ≡ S.dims settler.now }
    requires root { length other.now.root ≡ N.dims }
    requires scratch { length scratch.old ≡ N.dims }
{
    let Some(root) = board.take() else {
        return Ok(false);
    };
    let Settled { fresh, low, high } = settle_by(alloc, settler, board, root, scratch)?;
    let Some(low) = low else {
        return Ok(false);
    };
    Ok(fresh && high.is_some() && !other.box_of(&low, scratch))
}

/// Opens two boards alike.
fn opens_two<N: Naming, S: Settler>(
    alloc: Global,
    settler: &S,
    opening: Paving,
    second: Paving,
    scratch: &mut IBox,
) -> Result<bool, Memory>
    requires rule { N.rule ≡ S.settle_of settler.now }
    requires depth { N.depth ≡ S.depth_of settler.now }
    requires dims { N.dims ≡ S.dims settler.now }
    requires fits { IsFitting N.rule N.depth N.dims }
    requires root { opening.root ≡ N.root }
    requires tree { opening.tree ≡ N.opening }
    requires root_too { second.root ≡ N.root }
    requires tree_too { second.tree ≡ N.opening }
    requires budget { N.budget ≡ 5 }
    requires limit { N.limit ≡ 100000 }
    requires places { length N.root ≡ N.dims }
    requires scratch { length scratch.old ≡ N.dims }
{
    let Ok(board) = Board::<N>::open(alloc, opening, 5) else {
        return Ok(false);
    };
    let Ok(other) = Board::<N>::open(alloc, second, 5) else {
        return Ok(false);
    };
    let mut board = board;
    strangers(alloc, settler, &mut board, &other, scratch)
}

/// The same with the settler's own rule.
fn opens_two_with<S: Settler>(
    alloc: Global,
    settler: &S,
    opening: Paving,
    second: Paving,
    scratch: &mut IBox,
) -> Result<bool, Memory>
    requires root { length opening.root ≡ S.dims settler.now }
    requires alike { second.root ≡ opening.root }
    requires tree_alike { second.tree ≡ opening.tree }
    requires scratch { length scratch.old ≡ S.dims settler.now }
{
    opens_two::<Brand, S>(alloc, settler, opening, second, scratch)
}

/// The settler of the points from 1/4 on, for at most two cuts.
fn quarter() -> Above
    ensures { result.dims ≡ 1 }
{
    Above::new(1, Num::fin(1, -2).unwrap_or(Num::ZERO), 0, 2)
}

/// A row on a board that is opened on the open box.
fn row_holds(alloc: Global, budget: u64, row: Row) -> Result<bool, Memory>
    requires some { 1 ≤ budget }
    requires few { budget ≤ 100000 }
{
    let settler = quarter();
    let mut scratch = unit_box(alloc)?;
    let opening = Paving::open(alloc, unit_box(alloc)?)?;
    opens_with(alloc, &settler, opening, budget, row, &mut scratch)
}

#[test]
fn worked_boards(rt: HostRuntime) -> Result<(), Fail> {
    let alloc = rt.alloc();
    assert!(rt; row_holds(alloc, 5, Row::Stopped)?);
    assert!(rt; row_holds(alloc, 1, Row::OneUnit)?);
    assert!(rt; row_holds(alloc, 5, Row::Recalled)?);
    Ok(())
}

/// Whether a budget is refused for a tree of three settled nodes.
fn three_refuse(alloc: Global, budget: u64, limit: NodeLimit) -> Result<bool, Memory>
    requires some { 1 ≤ budget }
    requires few { budget ≤ limit }
{
    let settler = quarter();
    let mut scratch = unit_box(alloc)?;
    let mut opening = Paving::open(alloc, unit_box(alloc)?)?;
    settle_first(alloc, &settler, &mut opening, 3, &mut scratch)?;
    Ok(refuses_with(alloc, &settler, opening, budget, limit, 3))
}

#[test]
fn a_full_tree_is_refused(rt: HostRuntime) -> Result<(), Fail> {
    let alloc = rt.alloc();
    let least = NodeLimit::by_default();
    assert!(rt; three_refuse(alloc, 100_000, least)?);
    assert!(rt; three_refuse(alloc, 99_998, least)?);
    assert!(rt; !three_refuse(alloc, 99_997, least)?);
    Ok(())
}

#[test]
fn a_higher_limit_lets_more_in(rt: HostRuntime) -> Result<(), Fail> {
    let alloc = rt.alloc();
    let limit = NodeLimit::new(100_001).unwrap_or(NodeLimit::by_default());
    assert!(rt; three_refuse(alloc, 99_999, limit)?);
    assert!(rt; !three_refuse(alloc, 99_998, limit)?);
    Ok(())
}

#[test]
fn another_board_lacks_the_child(rt: HostRuntime) -> Result<(), Fail> {
    let alloc = rt.alloc();
    let settler = quarter();
    let mut scratch = unit_box(alloc)?;
    let opening = Paving::open(alloc, unit_box(alloc)?)?;
    let second = opening.clone_of(alloc)?;
    assert!(rt; opens_two_with(alloc, &settler, opening, second, &mut scratch)?);
    Ok(())
}
