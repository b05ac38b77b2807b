//! The slopes of all nodes, one variable after another, and the linear form.

ghost use Rattle.std.specs.Prelude.{◌≡◌, ℕ, ◌<◌, ◌≤◌, ◌-◌, true, length, if◌then◌else◌};
ghost use Rattle.pv_interval.specs.Tables.{product_of, sum_of};
ghost use Rattle.pv_expr.specs.Systems.{IsUnary};
ghost use Rattle.pv_hc4.specs.Nodes.{AreOrdered, ReadsBelow, FitsNode, node_at, terms, term_at};
ghost use Rattle.pv_hc4.specs.Chain.{at as place_of};
ghost use Rattle.pv_hc4.specs.Graphs.{AreValues};
ghost use Rattle.pv_hc4.specs.Pass.{node_divides_well};
ghost use Rattle.pv_hc4.specs.Totality.{total_of};
ghost use Rattle.pv_slope.specs.Centres.{at_centre};
ghost use Rattle.pv_slope.specs.Centered.{has_finite_ends, from_centre as from_centre_of, linear_of};
ghost use Rattle.pv_slope.specs.Flat.{AreOf, AreFactors, node_factor};
ghost use Rattle.pv_slope.specs.Moving.{AreSlopes, HasDivisor, is_place, moving_slope, node_moves, seen};
ghost use Rattle.pv_slope.specs.SlopeTable.{zero_slope};
ghost use Rattle.pv_box.specs.declared.boxes.TheConstants.{MOST_PLACES};

use crate::centre::from_centre;
use crate::rows::{
    binary_factor, binary_slope, first_slope, learn, one, second_slope, unary_factor, unary_slope,
    zero,
};
use pv_box::IBox;
use pv_hc4::Node;
use pv_hc4::forward::place;
use pv_interval::Interval;

/// A graph's nodes with a box, and what was found for each node on it.
#[derive(Clone, Copy)]
pub(crate) struct Tables<'a> {
    pub(crate) nodes: &'a [Node],
    pub(crate) bx: &'a IBox,
    /// The interval on the box.
    pub(crate) values: &'a [Interval],
    /// The interval at the box's centre.
    pub(crate) centres: &'a [Interval],
    /// What the slopes for all variables have in common.
    pub(crate) factors: &'a [Interval],
}

fn factor(node: Node, values: &[Interval], centres: &[Interval]) -> Interval
    requires values { ReadsBelow (length values.now) node }
    requires centres { ReadsBelow (length centres.now) node }
    requires fits { FitsNode MOST_PLACES node }
    ensures { result ≡ node_factor values.now centres.now node }
{
    match node {
        Node::Constant { .. } | Node::Place(_) => Interval::ALL,
        Node::One(op, a) => unary_factor(op, values[a], centres[a]),
        Node::Two(op, a, b) => binary_factor(op, centres[a], centres[b]),
    }
}

// Gives each node what its slopes for all variables have in common.
pub(crate) fn factor_all(
    nodes: &[Node],
    dims: u8,
    values: &[Interval],
    centres: &[Interval],
    factors: &mut [Interval],
)
    requires ordered { AreOrdered nodes.now dims }
    requires dims { dims ≤ MOST_PLACES }
    requires values { length values.now ≡ length nodes.now }
    requires centres { length nodes.now ≤ length centres.now }
    requires factors { length nodes.now ≤ length factors.old }
    ensures { AreFactors values.now centres.now nodes.now factors.new }
{
    for at in 0..nodes.len() {
        factors[at] = factor(nodes[at], values, centres);
    }
}

// Whether variable `i` stands in the term of a node, where that is told of earlier nodes.
fn has_variable(node: Node, i: u8, moving: &[bool]) -> bool
    requires { ReadsBelow (length moving.now) node }
    ensures { result ≡ node_moves i moving.now node }
{
    match node {
        Node::Constant { .. } => false,
        Node::Place(j) => i == j,
        Node::One(_, a) => moving[a],
        Node::Two(_, a, b) => moving[a] || moving[b],
    }
}

// The divisor of a quotient is an interval. It holds by its contract alone; the call does nothing.
fn learn_divisor(node: Node, values: &[Interval])
    requires { ReadsBelow (length values.now) node }
    ensures { HasDivisor values.now node }
{
    match node {
        Node::Two(_, _, b) => learn(values[b]),
        _ => {}
    }
}

// The slope of a node that moves with variable `i` over those of earlier nodes, of which `moving`
// tells whether they move. Nothing is read of those that don't.
#[tactic(auto, using(crate::proofs::Still::other_moves))]
fn slope(
    node: Node,
    i: u8,
    factor: Interval,
    values: &[Interval],
    centres: &[Interval],
    moving: &[bool],
    slopes: &[Interval],
) -> Interval
    requires values { ReadsBelow (length values.now) node }
    requires centres { ReadsBelow (length centres.now) node }
    requires moving { ReadsBelow (length moving.now) node }
    requires slopes { ReadsBelow (length slopes.now) node }
    requires moves { node_moves i moving.now node ≡ true }
    ensures { result ≡
        moving_slope i factor values.now centres.now moving.now slopes.now node }
{
    match node {
        Node::Constant { .. } => zero(),
        Node::Place(_) => one(),
        Node::One(op, a) => unary_slope(op, factor, values[a], slopes[a]),
        Node::Two(op, a, b) => {
            if !moving[a] {
                return second_slope(op, factor, values[a], values[b], centres[b], slopes[b]);
            }
            if !moving[b] {
                return first_slope(op, factor, values[a], values[b], centres[b], slopes[a]);
            }
            binary_slope(
                op, factor, values[a], values[b], centres[b], slopes[a], slopes[b],
            )
        }
    }
}

// Gives one more node its slope for variable `i`, if it moves.
#[tactic(auto, using(crate::proofs::Still::seen_other, crate::proofs::Still::flag_other))]
fn step(on: &Tables<'_>, at: usize, i: u8, moving: &mut [bool], slopes: &mut [Interval])
    requires node { at < length on.now.nodes.now }
    requires ordered { AreOrdered on.now.nodes.now (length on.now.bx.now) }
    requires values { length on.now.nodes.now ≤ length on.now.values.now }
    requires centres { length on.now.nodes.now ≤ length on.now.centres.now }
    requires factors { length on.now.nodes.now ≤ length on.now.factors.now }
    requires moving { length on.now.nodes.now ≤ length moving.old }
    requires slopes { length on.now.nodes.now ≤ length slopes.old }
    requires divides { node_divides_well on.now.values.now (node_at on.now.nodes.now at) ≡ true }
    ensures moving_in { length on.now.nodes.now ≤ length moving.new }
    ensures slopes_in { length on.now.nodes.now ≤ length slopes.new }
    ensures earlier { (k : ℕ) → k < at →
        seen moving.new slopes.new k ≡ seen moving.old slopes.old k }
    ensures here { seen moving.new slopes.new at ≡
        moving_slope i (place_of on.now.factors.now at) on.now.values.now on.now.centres.now
        moving.old slopes.old (node_at on.now.nodes.now at) }
{
    let node = on.nodes[at];
    let factors = on.factors;
    if !has_variable(node, i, moving) {
        learn_divisor(node, on.values);
        moving[at] = false;
        return;
    }
    slopes[at] = slope(node, i, factors[at], on.values, on.centres, moving, slopes);
    moving[at] = true;
}

// Gives each node that moves its slope for variable `i`, and tells of each whether it moves.
pub(crate) fn slope_all(on: &Tables<'_>, i: u8, moving: &mut [bool], slopes: &mut [Interval])
    requires ordered { AreOrdered on.now.nodes.now (length on.now.bx.now) }
    requires total { (k : ℕ) → k < length on.now.nodes.now →
        total_of on.now.bx.now (term_at (terms on.now.nodes.now) k) ≡ true }
    requires valued { AreValues on.now.bx.now on.now.nodes.now on.now.values.now }
    requires centred { AreOf (at_centre on.now.bx.now) on.now.nodes.now on.now.centres.now }
    requires factors { AreFactors on.now.values.now on.now.centres.now on.now.nodes.now
        on.now.factors.now }
    requires moving { length on.now.nodes.now ≤ length moving.old }
    requires slopes { length on.now.nodes.now ≤ length slopes.old }
    ensures slopes { AreSlopes on.now.bx.now i on.now.nodes.now moving.new slopes.new }
{
    for at in 0..on.nodes.len() {
        step(on, at, i, moving, slopes);
    }
}

fn reads_place(node: Node, i: u8) -> bool
    ensures { result ≡ is_place i node }
{
    match node {
        Node::Place(j) => i == j,
        _ => false,
    }
}

// How far variable `i` may be from its centre. The node of the variable has the centre.
fn distance(on: &Tables<'_>, i: u8) -> Interval
    requires place { i < length on.now.bx.now }
    requires finite { has_finite_ends on.now.bx.now ≡ true }
    requires ordered { AreOrdered on.now.nodes.now (length on.now.bx.now) }
    requires valued { AreValues on.now.bx.now on.now.nodes.now on.now.values.now }
    requires centred { AreOf (at_centre on.now.bx.now) on.now.nodes.now on.now.centres.now }
    ensures { result ≡ from_centre_of (place_of on.now.bx.now i) }
{
    let (values, centres) = (on.values, on.centres);
    for at in 0..on.nodes.len() {
        if reads_place(on.nodes[at], i) {
            return values[at].sub(centres[at]);
        }
    }
    from_centre(place(on.bx, i))
}

// The slope, where the node moves.
pub(crate) fn seen_slope(moves: bool, slope: Interval) -> Interval
    ensures { result ≡ (if moves then slope else zero_slope) }
{
    if moves { slope } else { zero() }
}

// A sum and variable `i`'s slope times its distance from the centre, where the root moves.
#[tactic(auto, using(crate::proofs::Numbers::add_still))]
fn added(sum: Interval, moves: bool, slope: Interval, on: &Tables<'_>, i: u8) -> Interval
    requires place { i < length on.now.bx.now }
    requires finite { has_finite_ends on.now.bx.now ≡ true }
    requires ordered { AreOrdered on.now.nodes.now (length on.now.bx.now) }
    requires valued { AreValues on.now.bx.now on.now.nodes.now on.now.values.now }
    requires centred { AreOf (at_centre on.now.bx.now) on.now.nodes.now on.now.centres.now }
    ensures { result ≡ sum_of sum
        (product_of (if moves then slope else zero_slope)
        (from_centre_of (place_of on.now.bx.now i))) }
{
    if !moves {
        learn(sum);
        return sum;
    }
    sum.add(slope.mul(distance(on, i)))
}

// The interval at the centre, and each slope times its variable's distance from there.
pub(crate) fn linear(
    on: &Tables<'_>,
    root: usize,
    moving: &mut [bool],
    slopes: &mut [Interval],
) -> Interval
    requires ordered { AreOrdered on.now.nodes.now (length on.now.bx.now) }
    requires root { root < length on.now.nodes.now }
    requires finite { has_finite_ends on.now.bx.now ≡ true }
    requires total { (k : ℕ) → k < length on.now.nodes.now →
        total_of on.now.bx.now (term_at (terms on.now.nodes.now) k) ≡ true }
    requires valued { AreValues on.now.bx.now on.now.nodes.now on.now.values.now }
    requires centred { AreOf (at_centre on.now.bx.now) on.now.nodes.now on.now.centres.now }
    requires factors { AreFactors on.now.values.now on.now.centres.now on.now.nodes.now
        on.now.factors.now }
    requires moving { length on.now.nodes.now ≤ length moving.old }
    requires slopes { length on.now.nodes.now ≤ length slopes.old }
    ensures { result ≡ linear_of on.now.bx.now (term_at (terms on.now.nodes.now) root)
        (length on.now.bx.now) }
{
    let mut sum = on.centres[root];
    for i in 0..on.bx.dims() {
        slope_all(on, i, moving, slopes);
        sum = added(sum, moving[root], slopes[root], on, i);
    }
    sum
}
