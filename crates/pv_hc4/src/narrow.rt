//! The downward pass.

ghost use Rattle.std.specs.Prelude.{◌≡◌, IsTrue, ℕ, ◌+◌, ◌<◌, ◌≤◌, length, Some, [], ◌∷◌};
ghost use Rattle.pv_hc4.specs.Chain.{Gives};
ghost use Rattle.pv_hc4.specs.Revise.{back_1, back_2, went, applied};
ghost use Rattle.pv_expr.specs.Systems.{IsUnary};
ghost use Rattle.pv_hc4.specs.Nodes.{AreOrdered, terms, term_at};
ghost use Rattle.pv_hc4.specs.Graphs.{AreValues};
ghost use Rattle.pv_hc4.specs.Resting.{MayRest, RestsAt};
ghost use Rattle.pv_project.specs.Rests.{Rests};

use crate::node::Node;
use pv_box::IBox;
use pv_expr::{BinaryOp, UnaryOp};
use pv_interval::Interval;
use pv_project::{
    Rest, back_abs, back_add_resting, back_div, back_max, back_min, back_mul, back_neg, back_pow,
    back_sub_resting,
};

fn back_unary(op: UnaryOp, target: Interval, x: Interval) -> Option<Interval>
    requires { IsUnary op }
    ensures { result ≡ back_1 op target x }
{
    match op {
        UnaryOp::Neg => back_neg(target, x),
        UnaryOp::Abs => back_abs(target, x),
        UnaryOp::Pow(n) => back_pow(target, x, n),
    }
}

// `rest` is an end of the target that is the one of the node's own interval.
fn back_binary(
    op: BinaryOp,
    target: Interval,
    x: Interval,
    y: Interval,
    rest: Rest,
) -> Option<(Interval, Interval)>
    requires { RestsAt op rest target x y }
    ensures { result ≡ back_2 op target x y }
{
    match op {
        BinaryOp::Add => back_add_resting(target, x, y, rest),
        BinaryOp::Sub => back_sub_resting(target, x, y, rest),
        BinaryOp::Mul => back_mul(target, x, y),
        BinaryOp::Div => back_div(target, x, y),
        BinaryOp::Min => back_min(target, x, y),
        BinaryOp::Max => back_max(target, x, y),
    }
}

// Meets one place with a target; false where that is empty.
fn narrow_place(bx: &mut IBox, place: u8, target: Interval) -> bool
    requires { place < length bx.old }
    ensures dims { length bx.new ≡ length bx.old }
    ensures narrowed { Gives result bx.new
        (applied bx.old (record { var = place; within = target } ∷ [])) }
{
    match crate::forward::place(bx, place).meet(target) {
        Some(x) => {
            bx.set(place, x);
            true
        }
        None => false,
    }
}

// Whether a target is left alone: it is the node's own interval, and such ones rest.
#[inline]
fn is_left(rests: bool, target: Interval, own: Interval) -> bool
    ensures { IsTrue result → IsTrue rests × (target ≡ own) }
{
    rests && target == own
}

// An end of a target that is the one of the node's own interval, if there is one.
#[inline]
fn rest_of(target: Interval, own: Interval) -> Rest
    ensures { Rests result target own }
{
    if target.lo() == own.lo() {
        Rest::Lower
    } else if target.hi() == own.hi() {
        Rest::Upper
    } else {
        Rest::Neither
    }
}

// Narrows the box by all occurrences below a node; false where a step is empty, and then the box is
// somewhere between. `entry` is the box that the values were made for. A target that is the node's
// own interval narrows nothing, and is left alone where `rests` says so.
pub(crate) fn narrow(
    nodes: &[Node],
    values: &[Interval],
    rests: bool,
    at: usize,
    target: Interval,
    entry: &[Interval],
    bx: &mut IBox,
) -> bool
    requires inside { at < length nodes.now }
    requires ordered { AreOrdered nodes.now (length bx.old) }
    requires valued { AreValues entry.now nodes.now values.now }
    requires rest { MayRest rests entry.now bx.old nodes.now }
    ensures dims { length bx.new ≡ length bx.old }
    ensures narrowed { Gives result bx.new
        (went entry.now bx.old (term_at (terms nodes.now) at) target) }
{
    if is_left(rests, target, values[at]) {
        let _places = bx.dims();
        return true;
    }
    match nodes[at] {
        Node::Constant { .. } => true,
        Node::Place(i) => narrow_place(bx, i, target),
        Node::One(op, a) => match back_unary(op, target, values[a]) {
            Some(x) => narrow(nodes, values, rests, a, x, entry, bx),
            None => false,
        },
        Node::Two(op, a, b) => {
            match back_binary(
                op,
                target,
                values[a],
                values[b],
                rest_of(target, values[at]),
            ) {
                Some(both) => {
                    narrow(nodes, values, rests, a, both.0, entry, bx)
                        && narrow(nodes, values, rests, b, both.1, entry, bx)
                }
                None => false,
            }
        }
    }
}
