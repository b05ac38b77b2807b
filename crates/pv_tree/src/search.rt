//! The search for open leaves.
ghost use Rattle.std.specs.Prelude.{◌≡◌, ◌-◌, ◌<◌, ◌≤◌, ◌++◌, Some, IfSome, length, drop};
ghost use Rattle.std.specs.Option.{option_map};
ghost use Rattle.pv_tree.specs.Trees.{first};
ghost use Rattle.pv_tree.specs.Arena.{cell_at, kids_of, is_open_cell};
ghost use Rattle.pv_tree.specs.Spots.{IsSpot, AreChildren, first_below, first_behind, first_of_pair};

use crate::arena::kids_at;
use crate::cell::{Cell, Node};
use crate::path::Path;

/// A node with the path that leads to it.
#[derive(Clone, Copy)]
pub(crate) struct Spot {
    pub(crate) at: usize,
    pub(crate) path: Path,
}

/// The children of a cut.
#[derive(Clone, Copy)]
pub(crate) struct Pair {
    pub(crate) low: Spot,
    pub(crate) high: Spot,
}

/// The children of a node, if it is a cut.
pub(crate) fn children(nodes: &[Node], spot: Spot) -> Option<Pair>
    requires { IsSpot nodes.now spot }
    ensures { AreChildren nodes.now spot result }
{
    let kids = kids_at(nodes, spot.at)?;
    Some(Pair {
        low: Spot {
            at: kids,
            path: spot.path.low(),
        },
        high: Spot {
            at: kids + 1,
            path: spot.path.high(),
        },
    })
}

/// The first open leaf at or below a node.
pub(crate) fn leftmost(nodes: &[Node], spot: Spot) -> Option<Path>
    requires { IsSpot nodes.now spot }
    ensures { result ≡ first_below nodes.now spot }
{
    let node = nodes[spot.at];
    if node.closed {
        return None;
    }
    if is_open(node.cell) {
        return Some(spot.path);
    }
    match children(nodes, spot) {
        None => None,
        Some(kids) => match leftmost(nodes, kids.low) {
            Some(found) => Some(found),
            None => leftmost(nodes, kids.high),
        },
    }
}

/// The first open leaf at or below a node that comes after the node of a path. The path leads
/// through the first node.
pub(crate) fn later(nodes: &[Node], spot: Spot, after: Path) -> Option<Path>
    requires spot { IsSpot nodes.now spot }
    requires through { length spot.path ≤ length after }
    ensures { result ≡ first_behind nodes.now spot (drop (length spot.path) after) }
{
    let depth = spot.path.len();
    match children(nodes, spot) {
        None => None,
        Some(kids) => {
            if depth == after.len() {
                first_of(nodes, kids)
            } else if after.step(depth) {
                later(nodes, kids.high, after)
            } else {
                match later(nodes, kids.low, after) {
                    Some(found) => Some(found),
                    None => leftmost(nodes, kids.high),
                }
            }
        }
    }
}

/// The first open leaf at or below two nodes.
fn first_of(nodes: &[Node], kids: Pair) -> Option<Path>
    requires low { IsSpot nodes.now kids.low }
    requires high { IsSpot nodes.now kids.high }
    ensures { result ≡ first_of_pair nodes.now kids }
{
    match leftmost(nodes, kids.low) {
        Some(found) => Some(found),
        None => leftmost(nodes, kids.high),
    }
}

fn is_open(cell: Cell) -> bool
    ensures { result ≡ is_open_cell cell }
{
    match cell {
        Cell::Open => true,
        _ => false,
    }
}
