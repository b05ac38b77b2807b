//! The intake of one arena by another, in the place of an open node.
ghost use Rattle.std.specs.Prelude.{◌≡◌, ◌+◌, ◌<◌, ◌≤◌, ◌^◌, ◌++◌, length, map, vec_len, vec_capacity};
ghost use Rattle.pv_tree.specs.Trees.{settled_of};
ghost use Rattle.pv_tree.specs.Arena.{Adds};
ghost use Rattle.pv_tree.specs.Intakes.{moved, moved_cell, CanMoveCell, CanMove, IsTakenIn};

use crate::cell::{Cell, Node};
use crate::outcome::Counts;
use pv_interval::Interval;

/// How far nodes and ends move.
#[derive(Clone, Copy)]
pub(crate) struct Shift {
    pub(crate) nodes: usize,
    pub(crate) ends: usize,
}

/// A cell with its children and its ends moved.
fn move_cell(cell: Cell, by: Shift) -> Cell
    requires { CanMoveCell cell by.nodes by.ends }
    ensures { result ≡ moved_cell by.nodes by.ends cell }
{
    match cell {
        Cell::Open => Cell::Open,
        Cell::Removed => Cell::Removed,
        Cell::Inner { start } => Cell::Inner {
            start: start + by.ends,
        },
        Cell::Small { start } => Cell::Small {
            start: start + by.ends,
        },
        Cell::Cut {
            start,
            var,
            at,
            kids,
        } => Cell::Cut {
            start: start + by.ends,
            var,
            at,
            kids: kids + by.nodes,
        },
    }
}

/// A node with its children and its ends moved.
fn move_node(node: Node, by: Shift) -> Node
    requires { CanMoveCell node.cell by.nodes by.ends }
    ensures { result ≡ moved by.nodes by.ends node }
{
    Node {
        cell: move_cell(node.cell, by),
        closed: node.closed,
    }
}

/// Appends moved nodes.
fn append_nodes(nodes: &mut Vec<Node>, more: &[Node], by: Shift)
    requires room { vec_len nodes.old + length more.now ≤ vec_capacity nodes.old }
    requires fits { CanMove more.now by.nodes by.ends }
    ensures items { nodes.new.items ≡ nodes.old.items ++ map (moved by.nodes by.ends) more.now }
    ensures capacity { vec_capacity nodes.new ≡ vec_capacity nodes.old }
{
    for i in 0..more.len() {
        nodes.push_reserved(move_node(more[i], by));
    }
}

/// Takes in the nodes of an arena in the place of the open node `at`.
pub(crate) fn take_nodes(nodes: &mut Vec<Node>, at: usize, more: &[Node], by: Shift)
    requires there { at < vec_len nodes.old }
    requires some { 0 < length more.now }
    requires room { vec_len nodes.old + length more.now ≤ vec_capacity nodes.old + 1 }
    requires by { vec_len nodes.old ≡ by.nodes + 1 }
    requires fits { CanMove more.now by.nodes by.ends }
    ensures taken { IsTakenIn nodes.old.items nodes.new.items more.now at by.nodes by.ends }
    ensures capacity { vec_capacity nodes.new ≡ vec_capacity nodes.old }
{
    nodes[at] = move_node(more[0], by);
    append_nodes(nodes, &more[1..], by);
}

/// Appends the ends of an arena.
pub(crate) fn take_ends(ends: &mut Vec<Interval>, more: &[Interval])
    requires { vec_len ends.old + length more.now ≤ vec_capacity ends.old }
    ensures items { ends.new.items ≡ ends.old.items ++ more.now }
    ensures capacity { vec_capacity ends.new ≡ vec_capacity ends.old }
{
    for i in 0..more.len() {
        ends.push_reserved(more[i]);
    }
}

/// The counts after an open leaf became a paving of other counts.
pub(crate) fn combine(counts: Counts, part: Counts) -> Counts
    requires some { 0 < counts.open_leaves }
    requires fits { settled_of counts + counts.open_leaves < 2 ^ 63 }
    requires part_fits { settled_of part + part.open_leaves < 2 ^ 63 }
    ensures { Adds counts part result }
{
    Counts {
        cut: counts.cut + part.cut,
        removed: counts.removed + part.removed,
        inner: counts.inner + part.inner,
        small: counts.small + part.small,
        open_leaves: counts.open_leaves - 1 + part.open_leaves,
    }
}
