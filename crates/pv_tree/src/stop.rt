//! Nodes to come on a stack, each with the path that leads to it.
ghost use Rattle.std.specs.Prelude.{◌≡◌, ◌+◌, ◌-◌, ◌<◌, ◌≤◌, ◌^◌, ◌++◌, [], ◌∷◌, false, Some, length, slice_index_or, vec_len, vec_capacity};
ghost use Rattle.pv_tree.specs.Arena.{cell_at, kids_of, HasKids, HasHalves, half_at};
ghost use Rattle.pv_tree.specs.Stops.{low_stop, high_stop, stops_below};
ghost use Rattle.pv_tree.specs.declared.path.TheConstants.{MOST_STEPS};

use crate::arena::{child_box, kids_at};
use crate::cell::Node;
use crate::path::Path;
use pv_box::IBox;
use pv_interval::Interval;

/// A node with its parent and the path that leads to it. The root's parent is of no account.
#[derive(Clone, Copy)]
pub(crate) struct Stop {
    pub(crate) at: usize,
    pub(crate) parent: usize,
    pub(crate) path: Path,
}

impl Stop {
    pub(crate) const ROOT: Stop = Stop {
        at: 0,
        parent: 0,
        path: Path::ROOT,
    };
}

/// Puts the children at `kids` of a stop on the stack, the low one on top.
pub(crate) fn push_pair(stops: &mut Vec<Stop>, stop: &Stop, kids: usize)
    requires short { length stop.now.path < MOST_STEPS }
    requires fits { kids + 1 < 2 ^ 64 }
    requires room { vec_len stops.old + 2 ≤ vec_capacity stops.old }
    ensures items { stops.new.items ≡ stops.old.items ++ stops_below stop.now (Some kids) }
    ensures capacity { vec_capacity stops.new ≡ vec_capacity stops.old }
{
    let parent = stop.at;
    stops.push_reserved(Stop {
        at: kids + 1,
        parent,
        path: stop.path.high(),
    });
    stops.push_reserved(Stop {
        at: kids,
        parent,
        path: stop.path.low(),
    });
}

/// Puts the children of a stop on the stack, if it is a cut.
pub(crate) fn push_kids(stops: &mut Vec<Stop>, nodes: &[Node], stop: &Stop)
    requires kids { HasKids nodes.now }
    requires there { stop.now.at < length nodes.now }
    requires short { (c : _) → kids_of (cell_at nodes.now stop.now.at) ≡ Some c →
        length stop.now.path < MOST_STEPS }
    requires room { (c : _) → kids_of (cell_at nodes.now stop.now.at) ≡ Some c →
        vec_len stops.old + 2 ≤ vec_capacity stops.old }
    ensures items { stops.new.items ≡
        stops.old.items ++ stops_below stop.now (kids_of (cell_at nodes.now stop.now.at)) }
    ensures capacity { vec_capacity stops.new ≡ vec_capacity stops.old }
{
    if let Some(kids) = kids_at(nodes, stop.at) {
        push_pair(stops, stop, kids);
    }
}

/// Writes stops over those of another stack.
pub(crate) fn copy_stops(from: &[Stop], into: &mut Vec<Stop>)
    requires { length from.now ≤ vec_capacity into.old }
    ensures items { into.new.items ≡ from.now }
    ensures capacity { vec_capacity into.new ≡ vec_capacity into.old }
{
    into.clear();
    for stop in from {
        into.push_reserved(*stop);
    }
}

/// Writes a stop's box over another box.
pub(crate) fn write_stop_box(
    root: &IBox,
    ends: &[Interval],
    nodes: &[Node],
    stop: &Stop,
    into: &mut IBox,
)
    requires dims { length into.old ≡ length root.now }
    requires there { stop.now.parent < length nodes.now }
    requires halves { 0 < length stop.now.path →
        HasHalves (length into.old) ends.now (cell_at nodes.now stop.now.parent) }
    ensures root { length stop.now.path ≡ 0 → into.new ≡ root.now }
    ensures half { 0 < length stop.now.path →
        half_at (length into.old) ends.now (cell_at nodes.now stop.now.parent)
        (slice_index_or stop.now.path (length stop.now.path - 1) false) ≡ Some into.new }
{
    let steps = stop.path.len();
    if steps == 0 {
        into.copy_from(root);
        return;
    }
    let parent = nodes[stop.parent].cell;
    child_box(ends, parent, stop.path.step(steps - 1), into);
}
