//! The intervals of all nodes at the centre of a box.

ghost use Rattle.std.specs.Prelude.{◌≡◌, ◌≢◌, ◌<◌, ◌≤◌, ◌&&◌, true, length, Some};
ghost use Rattle.pv_interval.specs.Subsets.{IsSubset};
ghost use Rattle.pv_interval.specs.Tables.{exactly};
ghost use Rattle.pv_expr.specs.Systems.{IsUnary};
ghost use Rattle.pv_hc4.specs.Nodes.{AreOrdered, ReadsBelow, FitsNode};
ghost use Rattle.pv_hc4.specs.Forward.{unary_of, binary_of};
ghost use Rattle.pv_hc4.specs.Graphs.{AreValues};
ghost use Rattle.pv_slope.specs.Centres.{centre_of as centre_in, known, met_with, at_centre};
ghost use Rattle.pv_slope.specs.Centered.{is_finite as is_finite_end, has_finite_ends as have_finite_ends, from_centre as from_centre_of};
ghost use Rattle.pv_slope.specs.Flat.{AreOf, ArePartsInside, IsWholeOf, node_centre};

use crate::rows::learn;
use pv_box::IBox;
use pv_expr::{BinaryOp, UnaryOp};
use pv_hc4::Node;
use pv_hc4::forward::{binary, place, unary};
use pv_interval::Interval;
use pv_num::Num;

fn is_finite(end: Num) -> bool
    ensures { result ≡ is_finite_end end }
{
    Num::NEG_INF < end && end < Num::POS_INF
}

fn is_bounded(x: Interval) -> bool
    ensures { result ≡ (is_finite_end x.lo && is_finite_end x.hi) }
{
    is_finite(x.lo()) && is_finite(x.hi())
}

// Whether no end of the box is infinite.
pub(crate) fn has_finite_ends(bx: &IBox) -> bool
    ensures { result ≡ have_finite_ends bx.now }
{
    for i in 0..bx.dims() {
        if !is_bounded(place(bx, i)) {
            return false;
        }
    }
    true
}

// The middle, or the lower end where there is none.
fn centre_of(x: Interval) -> Num
    ensures { result ≡ centre_in x }
{
    if !is_bounded(x) {
        return x.lo();
    }
    let middle = Num::middle(x.lo(), x.hi());
    middle.unwrap_or(x.lo())
}

// The centre alone.
fn centre(x: Interval) -> Interval
    requires { (is_finite_end x.lo && is_finite_end x.hi) ≡ true }
    ensures { result ≡ exactly (centre_in x) }
{
    let at = centre_of(x);
    match Interval::new(at, at) {
        Some(alone) => alone,
        None => unreachable!(),
    }
}

// How far the numbers of an interval lie from its centre.
pub(crate) fn from_centre(x: Interval) -> Interval
    requires { (is_finite_end x.lo && is_finite_end x.hi) ≡ true }
    ensures { result ≡ from_centre_of x }
{
    x.sub(centre(x))
}

// The centre of a place, which lies in it.
#[tactic(auto, using(crate::proofs::Inside::centre_in_place))]
fn place_centre(x: Interval) -> Interval
    requires { (is_finite_end x.lo && is_finite_end x.hi) ≡ true }
    ensures value { result ≡ exactly (centre_in x) }
    ensures inside { IsSubset result x }
{
    learn(x);
    centre(x)
}

// The interval of an operation on a part whose interval at the centre, `c`, lies in its forward
// interval `f`. It lies in the operation's forward interval, so it need not be met with that.
#[tactic(auto, using(crate::proofs::Inside::one_in, crate::proofs::Inside::one_met))]
fn unary_centre(op: UnaryOp, c: Interval, f: Interval, whole: Interval) -> Interval
    requires fits { IsUnary op }
    requires part { IsSubset c f }
    requires whole { whole ≡ unary_of op f }
    ensures value { result ≡ met_with (unary_of op c) whole }
    ensures inside { IsSubset result whole }
{
    learn(c);
    let at_centre = unary(op, c);
    learn(at_centre);
    at_centre
}

// The same of two parts.
#[tactic(auto, using(crate::proofs::Inside::two_in, crate::proofs::Inside::two_met, crate::proofs::Inside::none_met, crate::proofs::Inside::in_itself))]
fn binary_centre(
    op: BinaryOp,
    c: Interval,
    d: Interval,
    f: Interval,
    g: Interval,
    whole: Interval,
) -> Interval
    requires first { IsSubset c f }
    requires second { IsSubset d g }
    requires whole { binary_of op f g ≡ Some whole }
    ensures value { result ≡ met_with (known (binary_of op c d)) whole }
    ensures inside { IsSubset result whole }
{
    learn(c);
    learn(d);
    match binary(op, c, d) {
        Some(at_centre) => {
            learn(at_centre);
            at_centre
        }
        None => whole,
    }
}

// The interval of a node over those of earlier nodes; `whole` is its forward interval.
#[tactic(auto, using(crate::proofs::Inside::in_itself))]
fn value(
    node: Node,
    whole: Interval,
    bx: &IBox,
    values: &[Interval],
    centres: &[Interval],
) -> Interval
    requires values { ReadsBelow (length values.now) node }
    requires reads { ReadsBelow (length centres.now) node }
    requires fits { FitsNode (length bx.now) node }
    requires finite { have_finite_ends bx.now ≡ true }
    requires parts { ArePartsInside values.now centres.now node }
    requires whole { IsWholeOf bx.now values.now whole node }
    ensures value { result ≡ node_centre bx.now centres.now whole node }
    ensures inside { IsSubset result whole }
{
    match node {
        Node::Constant { .. } => whole,
        Node::Place(i) => place_centre(place(bx, i)),
        Node::One(op, a) => unary_centre(op, centres[a], values[a], whole),
        Node::Two(op, a, b) => {
            binary_centre(op, centres[a], centres[b], values[a], values[b], whole)
        }
    }
}

// Gives each node its interval at the centre.
pub(crate) fn centre_all(nodes: &[Node], bx: &IBox, values: &[Interval], centres: &mut [Interval])
    requires ordered { AreOrdered nodes.now (length bx.now) }
    requires finite { have_finite_ends bx.now ≡ true }
    requires valued { AreValues bx.now nodes.now values.now }
    requires room { length nodes.now ≤ length centres.old }
    ensures { AreOf (at_centre bx.now) nodes.now centres.new }
{
    for at in 0..nodes.len() {
        centres[at] = value(nodes[at], values[at], bx, values, centres);
    }
}
