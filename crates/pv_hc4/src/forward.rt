//! The forward pass.

ghost use Rattle.std.specs.Prelude.{◌≡◌, ℕ, ◌+◌, ◌<◌, ◌≤◌, length, Some, IsTrue};
ghost use Rattle.pv_hc4.specs.Forward.{unary_of, binary_of};
ghost use Rattle.pv_expr.specs.Systems.{IsUnary};
ghost use Rattle.pv_hc4.specs.Nodes.{AreOrdered, ReadsBelow, FitsNode};
ghost use Rattle.pv_hc4.specs.Graphs.{AreValues, AreReady};
ghost use Rattle.pv_hc4.specs.Chain.{at};
ghost use Rattle.pv_hc4.specs.Pass.{node_value, IsPass};

use crate::node::Node;
use pv_box::IBox;
use pv_expr::{BinaryOp, UnaryOp};
use pv_interval::Interval;

/// The interval of an operation on an interval.
pub fn unary(op: UnaryOp, x: Interval) -> Interval
    requires { IsUnary op }
    ensures { result ≡ unary_of op x }
{
    match op {
        UnaryOp::Neg => x.neg(),
        UnaryOp::Abs => x.abs(),
        UnaryOp::Pow(n) => x.pow(n),
    }
}

/// The interval of an operation on two intervals; None where a divisor is [0,0].
pub fn binary(op: BinaryOp, x: Interval, y: Interval) -> Option<Interval>
    ensures { result ≡ binary_of op x y }
{
    match op {
        BinaryOp::Add => Some(x.add(y)),
        BinaryOp::Sub => Some(x.sub(y)),
        BinaryOp::Mul => Some(x.mul(y)),
        BinaryOp::Div => x.quotient(y),
        BinaryOp::Min => Some(x.min(y)),
        BinaryOp::Max => Some(x.max(y)),
    }
}

/// One place of a box.
pub fn place(bx: &IBox, i: u8) -> Interval
    requires { i < length bx.now }
    ensures { result ≡ at bx.now i }
{
    bx.get(i)
}

// The interval of a node over those of earlier nodes; `own` is a constant's.
fn value(node: Node, own: Interval, bx: &IBox, values: &[Interval]) -> Option<Interval>
    requires reads { ReadsBelow (length values.now) node }
    requires fits { FitsNode (length bx.now) node }
    ensures { result ≡ node_value bx.now values.now own node }
{
    match node {
        Node::Constant { .. } => Some(own),
        Node::Place(i) => Some(place(bx, i)),
        Node::One(op, a) => Some(unary(op, values[a])),
        Node::Two(op, a, b) => binary(op, values[a], values[b]),
    }
}

/// Gives each node its interval; false where one of them is empty. At the entry the constants have
/// theirs.
pub fn forward_all(nodes: &[Node], bx: &IBox, values: &mut [Interval]) -> bool
    requires ordered { AreOrdered nodes.now (length bx.now) }
    requires ready { AreReady nodes.now values.old }
    ensures passed { IsPass bx.now nodes.now values.new result }
{
    for at in 0..nodes.len() {
        match value(nodes[at], values[at], bx, values) {
            Some(x) => values[at] = x,
            None => return false,
        }
    }
    true
}
