//! The arena of a paving: nodes by number, and the ends of their boxes in one flat vector.
ghost use Rattle.std.specs.Prelude.{◌≡◌, ◌+◌, ◌*◌, ◌^◌, ◌<◌, ◌≤◌, ◌++◌, ℕ, Some, IfSome, length, take, vec_len, vec_capacity, slice_index_or};
ghost use Rattle.pv_box.specs.Boxes.{IsBox, lower_half, upper_half};
ghost use Rattle.pv_tree.specs.Trees.{KeepsBox, IsStrictlyInside, counts_of, settled, settled_of};
ghost use Rattle.pv_tree.specs.Arena.{cell_at, reach, side, kids_of, HasKids, IsPlaced, IsRemarked, MarksRight, shape_of_cell, cell_along, kept, start_of, start_along, HasHalves, half_at, Adds, Shows, HasPlaces, places_of, IsLonger};

use crate::cell::{Cell, Node};
use crate::outcome::{Counts, Outcome, Shape};
use crate::path::Path;
use pv_box::IBox;
use pv_interval::Interval;
use pv_num::Num;

/// The child of a cut whose low child stands at `kids`.
pub(crate) fn child(kids: usize, high: bool) -> usize
    requires { kids + 1 < 2 ^ 64 }
    ensures { result ≡ side high kids }
{
    if high { kids + 1 } else { kids }
}

/// Where the children of a node stand, if it is a cut.
pub(crate) fn kids_at(nodes: &[Node], at: usize) -> Option<usize>
    requires kids { HasKids nodes.now }
    requires there { at < length nodes.now }
    ensures kids { result ≡ kids_of (cell_at nodes.now at) }
    ensures there { IfSome result (λ k. k + 1 < length nodes.now) }
    ensures fits { IfSome result (λ k. k + 1 < 2 ^ 64) }
{
    let count = nodes.len();
    match nodes[at].cell {
        Cell::Cut { kids, .. } => {
            prove!(kids < count);
            Some(kids)
        }
        _ => None,
    }
}

/// The node that the first `steps` steps of a path lead to.
pub(crate) fn descend(nodes: &[Node], path: Path, steps: u32) -> Option<usize>
    requires kids { HasKids nodes.now }
    requires within { steps ≤ length path }
    ensures reached { result ≡ reach nodes.now 0 (take steps path) }
    ensures there { IfSome result (λ k. k < length nodes.now) }
{
    let mut at = 0;
    for i in 0..steps {
        match kids_at(nodes, at) {
            Some(kids) => at = child(kids, path.step(i)),
            None => return None,
        }
    }
    Some(at)
}

/// The cell that the first `steps` steps of a path lead to.
pub(crate) fn cell_after(nodes: &[Node], path: Path, steps: u32) -> Option<Cell>
    requires kids { HasKids nodes.now }
    requires within { steps ≤ length path }
    ensures { result ≡ cell_along nodes.now path steps }
{
    match descend(nodes, path, steps) {
        Some(at) => Some(nodes[at].cell),
        None => None,
    }
}

/// Appends the ends of a box.
fn append(ends: &mut Vec<Interval>, bx: &IBox)
    requires { vec_len ends.old + length bx.now ≤ vec_capacity ends.old }
    ensures items { ends.new.items ≡ ends.old.items ++ bx.now }
    ensures is_box { IsBox bx.now }
    ensures capacity { vec_capacity ends.new ≡ vec_capacity ends.old }
{
    for i in 0..bx.dims() {
        ends.push_reserved(bx.get(i));
    }
}

/// Appends the ends of what an outcome kept, and gives the cell that shows the outcome with its
/// children at `kids`.
pub(crate) fn lay_down(ends: &mut Vec<Interval>, outcome: &Outcome, kids: usize) -> Cell
    requires { vec_len ends.old + places_of outcome.now ≤ vec_capacity ends.old }
    ensures longer { IsLonger ends.old.items ends.new.items }
    ensures length { vec_len ends.new ≡ vec_len ends.old + places_of outcome.now }
    ensures capacity { vec_capacity ends.new ≡ vec_capacity ends.old }
    ensures shows { (d : ℕ) → HasPlaces d outcome.now →
        Shows d ends.new.items result outcome.now kids }
    ensures keeps { KeepsBox outcome.now }
{
    let start = ends.len();
    match outcome {
        Outcome::Removed => Cell::Removed,
        Outcome::Inner { to } => {
            append(ends, to);
            Cell::Inner { start }
        }
        Outcome::Small { to } => {
            append(ends, to);
            Cell::Small { start }
        }
        Outcome::Cut { to, var, at } => {
            append(ends, to);
            Cell::Cut {
                start,
                var: *var,
                at: *at,
                kids,
            }
        }
    }
}

/// Writes a kept box over another.
pub(crate) fn copy_out(ends: &[Interval], start: usize, into: &mut IBox)
    requires { start + length into.old ≤ length ends.now }
    ensures is { into.new ≡ kept (length into.old) ends.now start }
    ensures places { length into.new ≡ length into.old }
{
    let places = into.dims();
    for i in 0..places {
        into.set(i, ends[start + i as usize]);
    }
}

/// Cuts a box to its upper half.
fn raise(bx: &mut IBox, var: u8, at: Num)
    requires { IsStrictlyInside at var bx.old }
    ensures { bx.new ≡ upper_half bx.old var at }
{
    let _places = bx.dims();
    let place = bx.get(var);
    match Interval::new(at, place.hi()) {
        Some(part) => bx.set(var, part),
        None => unreachable!(),
    }
}

/// Cuts a box to its lower half.
fn lower(bx: &mut IBox, var: u8, at: Num)
    requires { IsStrictlyInside at var bx.old }
    ensures { bx.new ≡ lower_half bx.old var at }
{
    let _places = bx.dims();
    let place = bx.get(var);
    match Interval::new(place.lo(), at) {
        Some(part) => bx.set(var, part),
        None => unreachable!(),
    }
}

/// Writes the box of a cut's low or high child over another box.
pub(crate) fn child_box(ends: &[Interval], cell: Cell, high: bool, into: &mut IBox)
    requires { HasHalves (length into.old) ends.now cell }
    ensures { half_at (length into.old) ends.now cell high ≡ Some into.new }
{
    match cell {
        Cell::Cut { start, var, at, .. } => {
            copy_out(ends, start, into);
            if high {
                raise(into, var, at);
            } else {
                lower(into, var, at);
            }
        }
        _ => unreachable!(),
    }
}

/// Where the ends of a cell's `to` begin.
pub(crate) fn start_in(cell: Cell) -> Option<usize>
    ensures { result ≡ start_of cell }
{
    match cell {
        Cell::Open => None,
        Cell::Removed => None,
        Cell::Inner { start } => Some(start),
        Cell::Small { start } => Some(start),
        Cell::Cut { start, .. } => Some(start),
    }
}

/// Where the ends of the `to` of the node at a path begin.
pub(crate) fn start_at(nodes: &[Node], path: Path) -> Option<usize>
    requires kids { HasKids nodes.now }
    ensures { result ≡ start_along nodes.now (reach nodes.now 0 (take (length path) path)) }
{
    match descend(nodes, path, path.len()) {
        Some(at) => start_in(nodes[at].cell),
        None => None,
    }
}

/// Puts a cell in the place of an open one. The children of a cut stand open at the end.
pub(crate) fn place(nodes: &mut Vec<Node>, at: usize, cell: Cell)
    requires there { at < vec_len nodes.old }
    requires room { vec_len nodes.old + 2 ≤ vec_capacity nodes.old }
    ensures placed { IsPlaced nodes.old.items nodes.new.items at cell }
    ensures capacity { vec_capacity nodes.new ≡ vec_capacity nodes.old }
{
    if let Cell::Cut { .. } = cell {
        nodes[at] = Node {
            cell,
            closed: false,
        };
        nodes.push_reserved(Node::OPEN);
        nodes.push_reserved(Node::OPEN);
    } else {
        nodes[at] = Node { cell, closed: true };
    }
}

/// Marks a cut as closed where both its children are.
pub(crate) fn mark(nodes: &mut [Node], at: usize, kids: usize)
    requires there { at < length nodes.old }
    requires kids { kids_of (cell_at nodes.old at) ≡ Some kids }
    requires kids_there { kids + 1 < length nodes.old }
    requires marks { MarksRight nodes.old }
    ensures { IsRemarked nodes.old nodes.new }
{
    if nodes[kids].closed && nodes[kids + 1].closed {
        nodes[at].closed = true;
    }
}

/// Marks the nodes on a path's way, from the end of the path up, as closed where both their
/// children are.
pub(crate) fn close(nodes: &mut [Node], at: usize, path: Path, depth: u32)
    requires kids { HasKids nodes.old }
    requires there { at < length nodes.old }
    requires marks { MarksRight nodes.old }
    requires within { depth ≤ length path }
    ensures { IsRemarked nodes.old nodes.new }
{
    if depth == path.len() {
        return;
    }
    if let Some(kids) = kids_at(nodes, at) {
        close(nodes, child(kids, path.step(depth)), path, depth + 1);
        mark(nodes, at, kids);
    }
}

/// Marks the nodes on a path's way as `close` does.
pub(crate) fn close_way(nodes: &mut Vec<Node>, path: Path)
    requires kids { HasKids nodes.old.items }
    requires marks { MarksRight nodes.old.items }
    ensures remarked { IsRemarked nodes.old.items nodes.new.items }
    ensures count { vec_len nodes.new ≡ vec_len nodes.old }
    ensures capacity { vec_capacity nodes.new ≡ vec_capacity nodes.old }
{
    close(nodes, 0, path, 0);
}

/// Marks each cut as closed where both its children are, from the last node back.
fn mark_back(nodes: &mut [Node])
    requires kids { HasKids nodes.old }
    requires marks { MarksRight nodes.old }
    ensures { IsRemarked nodes.old nodes.new }
{
    let mut at = nodes.len();
    while at > 0 {
        at -= 1;
        if let Some(kids) = kids_at(nodes, at) {
            mark(nodes, at, kids);
        }
    }
}

/// Marks each cut as `mark_back` does.
pub(crate) fn mark_all(nodes: &mut Vec<Node>)
    requires kids { HasKids nodes.old.items }
    requires marks { MarksRight nodes.old.items }
    ensures remarked { IsRemarked nodes.old.items nodes.new.items }
    ensures count { vec_len nodes.new ≡ vec_len nodes.old }
    ensures capacity { vec_capacity nodes.new ≡ vec_capacity nodes.old }
{
    mark_back(nodes);
}

/// The counts after an open leaf was settled.
pub(crate) fn tally(counts: Counts, outcome: &Outcome) -> Counts
    requires some { 0 < counts.open_leaves }
    requires fits { settled_of counts + counts.open_leaves < 2 ^ 63 }
    ensures { Adds counts (counts_of (settled outcome.now)) result }
{
    let mut after = counts;
    match outcome {
        Outcome::Removed => {
            after.removed += 1;
            after.open_leaves -= 1;
        }
        Outcome::Inner { .. } => {
            after.inner += 1;
            after.open_leaves -= 1;
        }
        Outcome::Small { .. } => {
            after.small += 1;
            after.open_leaves -= 1;
        }
        Outcome::Cut { .. } => {
            after.cut += 1;
            after.open_leaves += 1;
        }
    }
    after
}

/// The shape of a cell.
pub(crate) fn cell_shape(cell: Cell) -> Shape
    ensures { result ≡ shape_of_cell cell }
{
    match cell {
        Cell::Open => Shape::OpenLeaf,
        Cell::Removed => Shape::Removed,
        Cell::Inner { .. } => Shape::Inner,
        Cell::Small { .. } => Shape::Small,
        Cell::Cut { var, at, .. } => Shape::Cut { var, at },
    }
}
