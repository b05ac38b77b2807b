//! Worked boards that take in stages: what was settled elsewhere, and what a ticket's leaf became.
ghost use Rattle.std.specs.Prelude.{◌≡◌, ◌≤◌, [], length, IfOk};
ghost use Rattle.pv_tree.specs.Trees.{leaf};
ghost use Rattle.pv_board.specs.Events.{leaves_at};
ghost use Rattle.pv_board.specs.Rules.{IsFitting};

use crate::tickets::{has, settle_by, unit_box};
use pv_board::pile::pile;
use pv_board::{AbsorbRefused, Board, Handed, Naming, Settled, Ticket};
use pv_box::IBox;
use pv_join::{Audit, audit};
use pv_num::{Memory, Num};
use pv_tree::{Batch, Path, Paving, Settler, Shape};
use std::alloc::Global;
use std::marker::Brand;
use std::test::Fail;
use test_sample::{Above, settle_first};

/// What came of absorbing a paving.
#[derive(Clone, Copy, PartialEq, Eq)]
pub(crate) enum Absorbed {
    Added(u64),
    TooMany(u64),
    NoStage,
}

/// Which worked board is played.
#[derive(Clone, Copy)]
enum Row {
    LowChild,
    RootIssued,
    JustFits,
    TooMany,
    ThreeAtOnce,
}

/// Absorbs a paving that is a stage of the open box, as an audit finds.
pub(crate) fn absorb_audited<N: Naming, S: Settler>(
    alloc: Global,
    settler: &S,
    board: &mut Board<N>,
    stage: &Paving,
) -> Result<Absorbed, Memory>
    requires rule { N.rule ≡ S.settle_of settler.now }
    requires depth { N.depth ≡ S.depth_of settler.now }
    requires dims { N.dims ≡ S.dims settler.now }
    requires opening { N.opening ≡ leaf }
    requires root { stage.now.root ≡ N.root }
    requires places { length N.root ≡ N.dims }
{
    match audit(alloc, settler, stage)? {
        Audit::Honest => {}
        Audit::DiffersAt {
            path: _,
            outcome: _,
        } => return Ok(Absorbed::NoStage),
    }
    match board.absorb(alloc, stage) {
        Ok(added) => Ok(Absorbed::Added(added)),
        Err(AbsorbRefused::Memory) => Err(Memory),
        Err(AbsorbRefused::TreeLimit { settled }) => Ok(Absorbed::TooMany(settled)),
    }
}

/// Whether the node at a path was cut here in its only place.
fn is_cut_at(paving: &Paving, path: Path, at: Num) -> bool {
    match paving.shape_at(path) {
        Shape::Cut { var, at: found } => var == 0 && found == at,
        _ => false,
    }
}

fn is_inner(paving: &Paving, path: Path) -> bool {
    match paving.shape_at(path) {
        Shape::Inner => true,
        _ => false,
    }
}

fn is_small(paving: &Paving, path: Path) -> bool {
    match paving.shape_at(path) {
        Shape::Small => true,
        _ => false,
    }
}

/// Whether a paving is cut at 1/2 and 1/4, small up to 1/4 and inner from there on.
fn is_whole(paving: &Paving) -> bool {
    let root = Path::root();
    let low = root.low();
    is_cut_at(paving, root, Num::fin(1, -1).unwrap_or(Num::ZERO))
        && is_cut_at(paving, low, Num::fin(1, -2).unwrap_or(Num::ZERO))
        && is_small(paving, low.low())
        && is_inner(paving, low.high())
        && is_inner(paving, root.high())
        && paving.counts().settled() == 5
}

/// Cuts the root, gives its low child back, absorbs a stage that settled that one, and settles the
/// high child.
fn absorbs_low<N: Naming, S: Settler>(
    alloc: Global,
    settler: &S,
    board: &mut Board<N>,
    stage: &Paving,
    scratch: &mut IBox,
) -> Result<bool, Memory>
    requires rule { N.rule ≡ S.settle_of settler.now }
    requires depth { N.depth ≡ S.depth_of settler.now }
    requires dims { N.dims ≡ S.dims settler.now }
    requires opening { N.opening ≡ leaf }
    requires root { stage.now.root ≡ N.root }
    requires places { length N.root ≡ N.dims }
    requires scratch { length scratch.old ≡ N.dims }
{
    let Some(root) = board.take() else {
        return Ok(false);
    };
    let Settled {
        fresh: _,
        low,
        high,
    } = settle_by(alloc, settler, board, root, scratch)?;
    let Some(low) = low else {
        return Ok(false);
    };
    let Some(high) = high else {
        return Ok(false);
    };
    board.give_back(low);
    let absorbed = absorb_audited(alloc, settler, board, stage)?;
    let added = absorbed == Absorbed::Added(3) && has(board, 1, 1, 3);
    let Settled { fresh, low, high } = settle_by(alloc, settler, board, high, scratch)?;
    Ok(added && fresh && low.is_none() && high.is_none() && has(board, 2, 0, 3))
}

/// Absorbs a stage while the root is issued: nothing is added.
fn root_issued<N: Naming, S: Settler>(
    alloc: Global,
    settler: &S,
    board: &mut Board<N>,
    stage: &Paving,
) -> Result<bool, Memory>
    requires rule { N.rule ≡ S.settle_of settler.now }
    requires depth { N.depth ≡ S.depth_of settler.now }
    requires dims { N.dims ≡ S.dims settler.now }
    requires opening { N.opening ≡ leaf }
    requires root { stage.now.root ≡ N.root }
    requires places { length N.root ≡ N.dims }
{
    let Some(_root) = board.take() else {
        return Ok(false);
    };
    let absorbed = absorb_audited(alloc, settler, board, stage)?;
    let counts = board.counts();
    let is_open = counts.settled() == 0 && counts.open_leaves == 1;
    Ok(absorbed == Absorbed::Added(0) && is_open && has(board, 0, 1, 4))
}

/// Absorbs a stage on a new board. Tells whether that comes of it and as many nodes are settled
/// then as are named.
fn absorbs_first<N: Naming, S: Settler>(
    alloc: Global,
    settler: &S,
    board: &mut Board<N>,
    stage: &Paving,
    wanted: Absorbed,
    settled: u64,
) -> Result<bool, Memory>
    requires rule { N.rule ≡ S.settle_of settler.now }
    requires depth { N.depth ≡ S.depth_of settler.now }
    requires dims { N.dims ≡ S.dims settler.now }
    requires opening { N.opening ≡ leaf }
    requires root { stage.now.root ≡ N.root }
    requires places { length N.root ≡ N.dims }
{
    let left = board.left();
    let absorbed = absorb_audited(alloc, settler, board, stage)?;
    let same = has(board, 0, 0, left);
    Ok(absorbed == wanted && same && board.counts().settled() == settled)
}

fn is_at(ticket: &Option<Ticket>, path: Path) -> bool {
    match ticket {
        Some(ticket) => ticket.path() == path && ticket.grant() == 0,
        None => false,
    }
}

/// The paths of a stage's open leaves, in preorder.
fn leaves_of(alloc: Global, stage: &Paving) -> Result<Vec<Path>, Memory>
    ensures { IfOk result (λ v. v.items ≡ leaves_at [] stage.now.tree) }
{
    let _places = stage.dims();
    let most = stage.counts().settled();
    let mut leaves = Vec::with_capacity(alloc, most as usize + 1)?;
    pile(stage, Path::root(), Path::root(), &mut leaves);
    leaves.reverse();
    Ok(leaves)
}

/// Takes the root with five units more, and settles three nodes at once.
fn three_at_once<N: Naming, S: Settler>(
    alloc: Global,
    settler: &S,
    board: &mut Board<N>,
    scratch: &mut IBox,
) -> Result<bool, Memory>
    requires rule { N.rule ≡ S.settle_of settler.now }
    requires depth { N.depth ≡ S.depth_of settler.now }
    requires dims { N.dims ≡ S.dims settler.now }
    requires scratch { length scratch.old ≡ N.dims }
{
    let Some(mut root) = board.take() else {
        return Ok(false);
    };
    if board.extend(&mut root, 15) != 5 || root.grant() != 5 || root.path().len() != 0 {
        return Ok(false);
    }
    let _used = board.used();
    if !board.box_of(&root, scratch) {
        return Ok(false);
    }
    let mut stage = Paving::open(alloc, scratch.clone_of(alloc)?)?;
    settle_first(alloc, settler, &mut stage, 3, scratch)?;
    if stage.counts().settled() != 3 {
        return Ok(false);
    }
    match audit(alloc, settler, &stage)? {
        Audit::Honest => {}
        Audit::DiffersAt {
            path: _,
            outcome: _,
        } => return Ok(false),
    }
    let leaves = leaves_of(alloc, &stage)?;
    if leaves.len() != 2 {
        return Ok(false);
    }
    let mut children = Batch::new(alloc)?;
    let handed = board.settle_stage(root, &stage, leaves.as_slice(), &mut children);
    let high = children.pop();
    let low = children.pop();
    let above = Path::root().high();
    let both = is_at(&low, above.low()) && is_at(&high, above.high());
    Ok(handed == Handed::Taken && both && children.len() == 0 && has(board, 3, 2, 1))
}

/// Plays one of the rows on a board.
fn plays<N: Naming, S: Settler>(
    alloc: Global,
    settler: &S,
    board: &mut Board<N>,
    stage: &Paving,
    row: Row,
    scratch: &mut IBox,
) -> Result<bool, Memory>
    requires rule { N.rule ≡ S.settle_of settler.now }
    requires depth { N.depth ≡ S.depth_of settler.now }
    requires dims { N.dims ≡ S.dims settler.now }
    requires opening { N.opening ≡ leaf }
    requires root { stage.now.root ≡ N.root }
    requires places { length N.root ≡ N.dims }
    requires scratch { length scratch.old ≡ N.dims }
{
    match row {
        Row::LowChild => absorbs_low(alloc, settler, board, stage, scratch),
        Row::RootIssued => root_issued(alloc, settler, board, stage),
        Row::JustFits => absorbs_first(alloc, settler, board, stage, Absorbed::Added(4), 4),
        Row::TooMany => absorbs_first(alloc, settler, board, stage, Absorbed::TooMany(4), 0),
        Row::ThreeAtOnce => three_at_once(alloc, settler, board, scratch),
    }
}

/// Opens a board and plays a row on it. The paving that is left of it.
fn opens<N: Naming, S: Settler>(
    alloc: Global,
    settler: &S,
    opening: Paving,
    stage: &Paving,
    budget: u64,
    row: Row,
    scratch: &mut IBox,
) -> Result<Option<Paving>, Memory>
    requires rule { N.rule ≡ S.settle_of settler.now }
    requires depth { N.depth ≡ S.depth_of settler.now }
    requires dims { N.dims ≡ S.dims settler.now }
    requires fits { IsFitting N.rule N.depth N.dims }
    requires root { opening.root ≡ N.root }
    requires tree { opening.tree ≡ N.opening }
    requires is_open { opening.tree ≡ leaf }
    requires stage_root { stage.now.root ≡ N.root }
    requires budget { budget ≡ N.budget }
    requires limit { N.limit ≡ 100000 }
    requires some { 1 ≤ budget }
    requires few { budget ≤ 100000 }
    requires places { length N.root ≡ N.dims }
    requires scratch { length scratch.old ≡ N.dims }
{
    let Ok(board) = Board::<N>::open(alloc, opening, budget) else {
        return Ok(None);
    };
    let mut board = board;
    if !plays(alloc, settler, &mut board, stage, row, scratch)? {
        return Ok(None);
    }
    board.recall();
    Ok(Some(board.into_paving()))
}

/// The same with the settler's own rule.
fn opens_with<S: Settler>(
    alloc: Global,
    settler: &S,
    opening: Paving,
    stage: &Paving,
    budget: u64,
    row: Row,
    scratch: &mut IBox,
) -> Result<Option<Paving>, Memory>
    requires root { length opening.root ≡ S.dims settler.now }
    requires is_open { opening.tree ≡ leaf }
    requires stage_root { stage.now.root ≡ opening.root }
    requires some { 1 ≤ budget }
    requires few { budget ≤ 100000 }
    requires scratch { length scratch.old ≡ S.dims settler.now }
{
    opens::<Brand, S>(alloc, settler, opening, stage, budget, row, scratch)
}

/// What is left after a row on a board over the box [0,1], for the points from a limit on and paths
/// of so many steps. The stage has the first four leaves settled.
fn row_leaves(
    alloc: Global,
    limit: Num,
    depth: u32,
    budget: u64,
    row: Row,
) -> Result<Option<Paving>, Memory>
    requires depth_some { 1 ≤ depth }
    requires depth_few { depth ≤ 200 }
    requires some { 1 ≤ budget }
    requires few { budget ≤ 100000 }
{
    let settler = Above::new(1, limit, 0, depth);
    let mut scratch = unit_box(alloc)?;
    let opening = Paving::open(alloc, unit_box(alloc)?)?;
    let mut stage = opening.clone_of(alloc)?;
    settle_first(alloc, &settler, &mut stage, 4, &mut scratch)?;
    opens_with(alloc, &settler, opening, &stage, budget, row, &mut scratch)
}

fn quarter() -> Num {
    Num::fin(1, -2).unwrap_or(Num::ZERO)
}

#[test]
fn a_stage_is_absorbed(rt: HostRuntime) -> Result<(), Fail> {
    let alloc = rt.alloc();
    let Some(whole) = row_leaves(alloc, quarter(), 2, 5, Row::LowChild)? else {
        return Err("no row".into());
    };
    assert!(rt; is_whole(&whole));
    assert!(rt; row_leaves(alloc, quarter(), 2, 5, Row::RootIssued)?.is_some());
    Ok(())
}

#[test]
fn a_stage_may_be_too_much(rt: HostRuntime) -> Result<(), Fail> {
    let alloc = rt.alloc();
    assert!(rt; row_leaves(alloc, quarter(), 2, 99_996, Row::JustFits)?.is_some());
    assert!(rt; row_leaves(alloc, quarter(), 2, 99_997, Row::TooMany)?.is_some());
    Ok(())
}

#[test]
fn three_nodes_are_settled_at_once(rt: HostRuntime) -> Result<(), Fail> {
    let alloc = rt.alloc();
    let limit = Num::fin(7, -3).unwrap_or(Num::ZERO);
    assert!(rt; row_leaves(alloc, limit, 3, 6, Row::ThreeAtOnce)?.is_some());
    Ok(())
}
