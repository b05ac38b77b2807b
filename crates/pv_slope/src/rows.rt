//! The rows of the table of slopes: the slope of an operation from the intervals and slopes of its
//! parts.

ghost use Rattle.std.specs.Prelude.{◌≡◌, ◌≤◌, ◌-◌};
ghost use Rattle.pv_num.specs.Parts.{IsNumber};
ghost use Rattle.pv_interval.specs.Bounds.{IsInterval};
ghost use Rattle.pv_interval.specs.Tables.{power_of};
ghost use Rattle.pv_expr.specs.Systems.{IsUnary};
ghost use Rattle.pv_slope.specs.Flat.{unary_factor as unary_factor_of, binary_factor as binary_factor_of, unary_slope_by, binary_slope_by};
ghost use Rattle.pv_slope.specs.SlopeTable.{zero_slope, one_slope, either_slope, power_term as power_term_of, power_factor as power_factor_of, absolute_slope as absolute_slope_of, least_slope as least_slope_of, greatest_slope as greatest_slope_of, quotient_slope as quotient_slope_of};

use pv_expr::{BinaryOp, UnaryOp};
use pv_interval::Interval;
use pv_num::Num;
use pv_num::laws::is_number;

/// [0,0].
pub(crate) fn zero() -> Interval
    ensures { result ≡ zero_slope }
{
    match Interval::new(Num::ZERO, Num::ZERO) {
        Some(x) => x,
        None => unreachable!(),
    }
}

/// [1,1].
pub(crate) fn one() -> Interval
    ensures { result ≡ one_slope }
{
    Interval::ALL.pow(0)
}

/// [-1,1].
fn either_sign() -> Interval
    ensures { result ≡ either_slope }
{
    one().neg().hull(one())
}

/// An interval's ends are numbers of the format, in their order. It holds by its contract alone; the
/// call does nothing.
pub(crate) fn learn(x: Interval)
    ensures lo { IsNumber x.lo }
    ensures hi { IsNumber x.hi }
    ensures interval { IsInterval x }
{
    is_number(x.lo());
    is_number(x.hi());
}

// A power; the first is the interval itself, with no work.
#[tactic(auto, using(crate::proofs::Numbers::first_power))]
fn raised(x: Interval, n: u8) -> Interval
    requires { n ≤ 32 }
    ensures { result ≡ power_of x n }
{
    if n == 1 {
        return x;
    }
    x.pow(n)
}

// f^k c^(n-k). A factor with the exponent 0 is 1, and takes no product.
#[tactic(auto, using(crate::proofs::Numbers::first_term, crate::proofs::Numbers::last_term))]
fn power_term(f: Interval, c: Interval, n: u8, k: u8) -> Interval
    requires n { n ≤ 32 }
    requires k { k ≤ n }
    ensures { result ≡ power_term_of f c n k }
{
    if k == 0 {
        let power = raised(c, n);
        learn(power);
        return power;
    }
    if k == n {
        let power = raised(f, n);
        learn(power);
        return power;
    }
    raised(f, k).mul(raised(c, n - k))
}

// What the slopes of f are multiplied by to be those of f^n: f^(n-1) + f^(n-2) c + .. + c^(n-1).
fn power_factor(f: Interval, c: Interval, n: u8) -> Interval
    requires { n ≤ 32 }
    ensures { result ≡ power_factor_of f c n }
{
    if n == 0 {
        return zero();
    }
    let last = n - 1;
    let mut sum = power_term(f, c, last, 0);
    for k in 0..last {
        sum = sum.add(power_term(f, c, last, k + 1));
    }
    sum
}

/// What the slopes of an operation for all variables have in common.
pub(crate) fn unary_factor(op: UnaryOp, f: Interval, c: Interval) -> Interval
    requires { IsUnary op }
    ensures { result ≡ unary_factor_of op f c }
{
    match op {
        UnaryOp::Neg | UnaryOp::Abs => Interval::ALL,
        UnaryOp::Pow(n) => power_factor(f, c, n),
    }
}

/// The same of an operation of two arguments, whose intervals at the centre are `c` and `d`.
pub(crate) fn binary_factor(op: BinaryOp, c: Interval, d: Interval) -> Interval
    ensures { result ≡ binary_factor_of op c d }
{
    match op {
        BinaryOp::Div => c.quotient(d).unwrap_or(Interval::ALL),
        _ => Interval::ALL,
    }
}

fn absolute_slope(f: Interval, s: Interval) -> Interval
    ensures { result ≡ absolute_slope_of f s }
{
    if Num::ZERO <= f.lo() {
        return s;
    }
    if f.hi() <= Num::ZERO {
        return s.neg();
    }
    either_sign().mul(s)
}

/// The slope of an operation on a part with the forward interval `f` and the slope `s`.
pub(crate) fn unary_slope(op: UnaryOp, factor: Interval, f: Interval, s: Interval) -> Interval
    ensures { result ≡ unary_slope_by op factor f s }
{
    match op {
        UnaryOp::Neg => s.neg(),
        UnaryOp::Abs => absolute_slope(f, s),
        UnaryOp::Pow(0) => zero(),
        UnaryOp::Pow(_) => factor.mul(s),
    }
}

fn least_slope(f: Interval, g: Interval, s: Interval, t: Interval) -> Interval
    ensures { result ≡ least_slope_of f g s t }
{
    if f.hi() <= g.lo() {
        return s;
    }
    if g.hi() <= f.lo() {
        return t;
    }
    s.hull(t)
}

fn greatest_slope(f: Interval, g: Interval, s: Interval, t: Interval) -> Interval
    ensures { result ≡ greatest_slope_of f g s t }
{
    if g.hi() <= f.lo() {
        return s;
    }
    if f.hi() <= g.lo() {
        return t;
    }
    s.hull(t)
}

fn quotient_slope(by: Interval, g: Interval, s: Interval, t: Interval) -> Interval
    ensures { result ≡ quotient_slope_of by g s t }
{
    s.sub(by.mul(t)).quotient(g).unwrap_or(Interval::ALL)
}

/// The slope of an operation on two parts with the forward intervals `f` and `g` and the slopes `s`
/// and `t`; `d` is the second part's interval at the centre.
pub(crate) fn binary_slope(
    op: BinaryOp,
    factor: Interval,
    f: Interval,
    g: Interval,
    d: Interval,
    s: Interval,
    t: Interval,
) -> Interval
    ensures { result ≡ binary_slope_by op factor f g d s t }
{
    match op {
        BinaryOp::Div => quotient_slope(factor, g, s, t),
        BinaryOp::Add => s.add(t),
        BinaryOp::Sub => s.sub(t),
        BinaryOp::Mul => f.mul(t).add(d.mul(s)),
        BinaryOp::Min => least_slope(f, g, s, t),
        BinaryOp::Max => greatest_slope(f, g, s, t),
    }
}

/// The same where the second part's slope is [0,0].
#[tactic(auto, using(crate::proofs::Numbers::add_nought, crate::proofs::Numbers::take_nought, crate::proofs::Numbers::first_product, crate::proofs::Numbers::first_quotient))]
pub(crate) fn first_slope(
    op: BinaryOp,
    factor: Interval,
    f: Interval,
    g: Interval,
    d: Interval,
    s: Interval,
) -> Interval
    ensures { result ≡ binary_slope_by op factor f g d s zero_slope }
{
    learn(s);
    match op {
        BinaryOp::Add => s,
        BinaryOp::Sub => s,
        BinaryOp::Mul => {
            let product = d.mul(s);
            learn(product);
            product
        }
        BinaryOp::Div => s.quotient(g).unwrap_or(Interval::ALL),
        BinaryOp::Min => least_slope(f, g, s, zero()),
        BinaryOp::Max => greatest_slope(f, g, s, zero()),
    }
}

/// The same where the first part's slope is [0,0].
#[tactic(auto, using(crate::proofs::Numbers::nought_add, crate::proofs::Numbers::nought_take, crate::proofs::Numbers::second_product, crate::proofs::Numbers::second_quotient))]
pub(crate) fn second_slope(
    op: BinaryOp,
    factor: Interval,
    f: Interval,
    g: Interval,
    d: Interval,
    t: Interval,
) -> Interval
    ensures { result ≡ binary_slope_by op factor f g d zero_slope t }
{
    learn(t);
    match op {
        BinaryOp::Add => t,
        BinaryOp::Sub => t.neg(),
        BinaryOp::Mul => {
            let product = f.mul(t);
            learn(product);
            product
        }
        BinaryOp::Div => {
            let product = factor.mul(t);
            learn(product);
            product.neg().quotient(g).unwrap_or(Interval::ALL)
        }
        BinaryOp::Min => least_slope(f, g, zero(), t),
        BinaryOp::Max => greatest_slope(f, g, zero(), t),
    }
}
