//! Divisors that may be 0, and what the ends of two intervals decide.

ghost use Rattle.std.specs.Prelude.{◌≡◌, ◌<◌, length, Some};
ghost use Rattle.pv_interval.specs.Tables.{has_nought};
ghost use Rattle.pv_hc4.specs.Nodes.{AreOrdered, ReadsBelow};
ghost use Rattle.pv_hc4.specs.Graphs.{AreValues};
ghost use Rattle.pv_hc4.specs.Pass.{node_divides_well, IsTotality};
ghost use Rattle.pv_hc4.specs.Totality.{divides_well, ends_decide};

use crate::node::Node;
use pv_box::IBox;
use pv_expr::{BinaryOp, Relation};
use pv_interval::Interval;
use pv_num::Num;

fn has_zero(x: Interval) -> bool
    ensures { result ≡ has_nought x }
{
    x.lo() <= Num::ZERO && Num::ZERO <= x.hi()
}

fn op_is_total(op: BinaryOp, y: Interval) -> bool
    ensures { result ≡ divides_well op (Some y) }
{
    match op {
        BinaryOp::Div => !has_zero(y),
        _ => true,
    }
}

fn node_is_total(node: Node, values: &[Interval]) -> bool
    requires { ReadsBelow (length values.now) node }
    ensures { result ≡ node_divides_well values.now node }
{
    match node {
        Node::Two(op, _, b) => op_is_total(op, values[b]),
        _ => true,
    }
}

/// Whether no divisor's interval contains 0, for the forward intervals of a box.
pub fn is_total(nodes: &[Node], values: &[Interval], bx: &IBox) -> bool
    requires ordered { AreOrdered nodes.now (length bx.now) }
    requires valued { AreValues bx.now nodes.now values.now }
    ensures { IsTotality bx.now nodes.now result }
{
    for at in 0..nodes.len() {
        if !node_is_total(nodes[at], values) {
            return false;
        }
    }
    true
}

// Whether all numbers of one interval stand so to all of the other.
pub(crate) fn decides(relation: Relation, l: Interval, r: Interval) -> bool
    ensures { result ≡ ends_decide relation l r }
{
    match relation {
        Relation::Eq => l.lo() == l.hi() && (r.lo() == r.hi() && l.lo() == r.lo()),
        Relation::Le => l.hi() <= r.lo(),
        Relation::Lt => l.hi() < r.lo(),
        Relation::Ge => r.hi() <= l.lo(),
        Relation::Gt => r.hi() < l.lo(),
    }
}
