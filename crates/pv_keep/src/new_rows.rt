//! The rows of nodes that a round settled.
ghost use Rattle.std.specs.Prelude.{◌≡◌, [], ◌<◌, ◌≤◌, ◌++◌, IfOk, IfSome, IsSome, OnOk, Some, length, drop};
ghost use Rattle.pv_tree.specs.Trees.{outcome_at, subtree, to_at, shape_of};
ghost use Rattle.pv_file.specs.Lines.{outcome_line};
ghost use Rattle.pv_file.specs.Readings.{HaveNumberEnds};
ghost use Rattle.pv_keep.specs.Rows.{row_of};
ghost use Rattle.pv_keep.specs.Below.{is_a_cut, rows_at, rows_from};
ghost use Rattle.pv_box.specs.declared.boxes.TheConstants.{MOST_PLACES};
ghost use Rattle.pv_file.specs.declared.writer.TheConstants.{LONGEST_LINE};

use crate::frontier::Frontier;
use crate::line::Line;
use crate::row::{Row, Rows};
use pv_box::IBox;
use pv_file::write_outcome;
use pv_interval::Interval;
use pv_num::Memory;
use pv_num::laws::is_number;
use pv_tree::{Outcome, Path, Paving, Shape};
use std::alloc::Global;

/// The rows of the settled nodes of a paving at and below the leaves that were open in an earlier
/// stage of it. It takes time for these nodes and leaves, and none for what was settled.
pub(crate) fn new_rows(alloc: Global, frontier: &Frontier, later: &Paving) -> Result<Rows, Memory>
    ensures { IfOk result (λ rows. rows ≡ rows_from [] later.now.tree frontier.now) }
{
    let mut rows = Rows::new(alloc);
    for path in frontier.leaves() {
        push_below(alloc, later, *path, &mut rows)?;
    }
    Ok(rows)
}

// Appends the rows of the settled nodes at and below a path, in preorder.
fn push_below(alloc: Global, paving: &Paving, path: Path, rows: &mut Rows) -> Result<(), Memory>
    ensures { OnOk result (rows.new ≡ rows.old ++ rows_at paving.now.tree path) }
{
    let _places = paving.dims();
    let shape = paving.shape_at(path);
    let goes_on = is_cut(&shape);
    push_settled(alloc, paving, path, shape, rows)?;
    if !goes_on {
        return Ok(());
    }
    push_below(alloc, paving, path.low(), rows)?;
    push_below(alloc, paving, path.high(), rows)
}

fn is_cut(shape: &Shape) -> bool
    ensures { result ≡ is_a_cut shape.now }
{
    match shape {
        Shape::Cut { .. } => true,
        Shape::Absent | Shape::OpenLeaf | Shape::Removed | Shape::Inner | Shape::Small => false,
    }
}

// Appends the row of the node at a path, if it is settled.
fn push_settled(
    alloc: Global,
    paving: &Paving,
    path: Path,
    shape: Shape,
    rows: &mut Rows,
) -> Result<(), Memory>
    requires { shape ≡ shape_of (subtree paving.now.tree path) }
    ensures { OnOk result (rows.new ≡
        rows.old ++ row_of path (outcome_at paving.now.tree path)) }
{
    let Some(outcome) = outcome_there(alloc, paving, path, shape)? else {
        return Ok(());
    };
    let row = Row {
        path,
        line: line_of(alloc, &outcome)?,
    };
    match rows.push(row) {
        Ok(()) => Ok(()),
        Err(_) => Err(Memory),
    }
}

fn line_of(alloc: Global, outcome: &Outcome) -> Result<Line, Memory>
    requires { length (outcome_line outcome.now) ≤ LONGEST_LINE }
    ensures { IfOk result (λ line. line ≡ outcome_line outcome.now) }
{
    let mut text = Vec::new(alloc);
    write_outcome(outcome, &mut text)?;
    match Line::of(alloc, &text)? {
        Some(line) => Ok(line),
        None => unreachable!(),
    }
}

// The outcome of the node at a path, which has this shape. None where it is open or not there.
fn outcome_there(
    alloc: Global,
    paving: &Paving,
    path: Path,
    shape: Shape,
) -> Result<Option<Outcome>, Memory>
    requires { shape ≡ shape_of (subtree paving.now.tree path) }
    ensures outcome { IfOk result (λ found. found ≡ outcome_at paving.now.tree path) }
    ensures short { IfOk result
        (λ found. IfSome found (λ o. length (outcome_line o) ≤ LONGEST_LINE)) }
{
    let dims = paving.dims();
    match shape {
        Shape::Absent => Ok(None),
        Shape::OpenLeaf => Ok(None),
        Shape::Removed => Ok(Some(Outcome::Removed)),
        Shape::Inner => {
            let to = kept_there(alloc, paving, path, dims)?;
            Ok(Some(Outcome::Inner { to }))
        }
        Shape::Small => {
            let to = kept_there(alloc, paving, path, dims)?;
            Ok(Some(Outcome::Small { to }))
        }
        Shape::Cut { var, at } => {
            let to = kept_there(alloc, paving, path, dims)?;
            is_number(at);
            Ok(Some(Outcome::Cut { to, var, at }))
        }
    }
}

// What the node at a path kept of its box.
fn kept_there(alloc: Global, paving: &Paving, path: Path, dims: u8) -> Result<IBox, Memory>
    requires there { IsSome (to_at paving.now.tree path) }
    requires dims { dims ≡ length paving.now.root }
    requires some { 0 < dims }
    requires few { dims ≤ MOST_PLACES }
    ensures is { IfOk result (λ to. to_at paving.now.tree path ≡ Some to) }
    ensures few { IfOk result (λ to. length to ≤ MOST_PLACES) }
    ensures numbers { IfOk result (λ to. HaveNumberEnds to) }
{
    let mut to = IBox::new(vec![in alloc; Interval::ALL; dims as usize]?);
    paving.to_at(path, &mut to);
    learn_numbers(&to, 0);
    Ok(to)
}

// The ends of each place from the i-th on are numbers of the format.
fn learn_numbers(bx: &IBox, i: u8)
    requires { i ≤ length bx.now }
    ensures { HaveNumberEnds (drop i bx.now) }
{
    if i < bx.dims() {
        let part = bx.get(i);
        is_number(part.lo());
        is_number(part.hi());
        learn_numbers(bx, i + 1);
    }
}
