//! Sums, differences and middles.
ghost use Rattle.std.specs.Prelude.{◌≡◌, ◌↔◌, ◌+◌, ◌-◌, ◌*◌, ◌^◌, ◌<◌, ◌≤◌, ◌≢◌, ◌⊎◌, ◌+ℤ◌, IsTrue, true, false};
ghost use Rattle.pv_num.specs.Extended.{NegInf, PosInf};
ghost use Rattle.pv_num.specs.Order.{le, lt};
ghost use Rattle.pv_num.specs.Rounding.{rounded};
ghost use Rattle.pv_num.specs.Sizes.{size_of, IsSized, fine, whole_of, is_infinite_of};
ghost use Rattle.pv_num.specs.Arithmetic.{add_of, sub_of, middle_of, between, end_of};

use crate::alike::alike_sum;
use crate::magnitude::{FINE_BITS, Magnitude, Toward};
use crate::num::{Class, End, Num, signed, toward};
use crate::round::round;
use crate::unlike::unlike_sum;

// Beyond this distance of exponents the smaller size only decides whether a sum is exact.
const FAR: u16 = 64;

impl Num {
    /// The sum, rounded to a side. Opposite infinite ends give the infinite end of that side.
    #[inline(always)]
    pub fn add(self, other: Num, side: End) -> Num
        ensures { result ≡ add_of side self other }
    {
        if other.is_infinite() {
            return infinite_sum(self, other, side);
        }
        if self.is_alike(other) {
            return alike_sum(self, other, side);
        }
        if self.is_infinite() {
            return infinite_sum(self, other, side);
        }
        unlike_sum(self, other, side)
    }

    /// The difference, rounded to a side.
    #[inline(always)]
    pub fn sub(self, other: Num, side: End) -> Num
        ensures { result ≡ sub_of side self other }
    {
        self.add(other.neg(), side)
    }

    /// A cut strictly between two finite numbers, near the middle: half their sum rounded down
    /// where that is above the lower one, else rounded up. None where no such cut lies strictly
    /// between.
    pub fn middle(lo: Num, hi: Num) -> Option<Num>
        requires lo_finite { (lo ≢ NegInf) × (lo ≢ PosInf) }
        requires hi_finite { (hi ≢ NegInf) × (hi ≢ PosInf) }
        requires ordered { IsTrue (le lo hi) }
        ensures { result ≡ middle_of lo hi }
    {
        let below = finite_sum(lo, hi, FINE_BITS - 1, End::Down);
        if lo < below {
            return strictly_between(lo, below, hi);
        }
        let above = finite_sum(lo, hi, FINE_BITS - 1, End::Up);
        strictly_between(lo, above, hi)
    }
}

#[inline]
fn strictly_between(lo: Num, cut: Num, hi: Num) -> Option<Num>
    ensures { result ≡ between lo hi cut }
{
    if lo < cut {
        if cut < hi { Some(cut) } else { None }
    } else {
        None
    }
}

#[inline(always)]
fn infinite_sum(a: Num, b: Num, side: End) -> Num
    requires { (is_infinite_of a ≡ true) ⊎ (is_infinite_of b ≡ true) }
    ensures { result ≡ add_of side a b }
{
    match a.class {
        Class::MinusOo => match b.class {
            Class::PlusOo => end(side),
            _ => Num::NEG_INF,
        },
        Class::PlusOo => match b.class {
            Class::MinusOo => end(side),
            _ => Num::POS_INF,
        },
        _ => b,
    }
}

// The infinite end of a side.
#[inline]
fn end(side: End) -> Num
    ensures { result ≡ end_of side }
{
    match side {
        End::Down => Num::NEG_INF,
        End::Up => Num::POS_INF,
    }
}

// The sum of finite numbers times 2^(at - 1024).
#[inline]
fn finite_sum(a: Num, b: Num, at: u16, side: End) -> Num
    requires a_finite { is_infinite_of a ≡ false }
    requires b_finite { is_infinite_of b ≡ false }
    requires at_high { 1023 ≤ at }
    requires at_fits { at ≤ 1024 }
    ensures { result ≡ rounded side (whole_of a +ℤ whole_of b) (2 ^ (1024 - at)) }
{
    let x = a.size();
    let y = b.size();
    let less = a.is_negative();
    if less ^ b.is_negative() {
        if is_smaller(x, y) {
            signed(!less, difference(y, x, at, toward(side, !less)))
        } else {
            signed(less, difference(x, y, at, toward(side, less)))
        }
    } else {
        signed(less, total(x, y, at, toward(side, less)))
    }
}

#[inline]
pub(crate) fn is_smaller(x: Magnitude, y: Magnitude) -> bool
    ensures { IsTrue result ↔ (size_of x < size_of y) }
{
    if x.exponent < y.exponent {
        true
    } else if y.exponent < x.exponent {
        false
    } else {
        x.mantissa < y.mantissa
    }
}

#[inline]
fn total(x: Magnitude, y: Magnitude, at: u16, toward: Toward) -> Option<Magnitude>
    requires at_high { 1023 ≤ at }
    requires at_fits { at ≤ 1024 }
    ensures { IsSized toward ((size_of x + size_of y) * 2 ^ at) fine result }
{
    if x.exponent < y.exponent {
        ordered_total(y, x, at, toward)
    } else {
        ordered_total(x, y, at, toward)
    }
}

// 1 where a size is not 0: what is left of it far below another size.
#[inline]
fn trace(y: Magnitude) -> u128
    ensures none { y.mantissa ≡ 0 → result ≡ 0 }
    ensures some { 0 < y.mantissa → result ≡ 1 }
{
    if y.mantissa == 0 { 0 } else { 1 }
}

#[inline]
fn ordered_total(x: Magnitude, y: Magnitude, at: u16, toward: Toward) -> Option<Magnitude>
    requires at_high { 1023 ≤ at }
    requires at_fits { at ≤ 1024 }
    requires ordered { y.exponent ≤ x.exponent }
    ensures { IsSized toward ((size_of x + size_of y) * 2 ^ at) fine result }
{
    let distance = x.exponent - y.exponent;
    if distance <= FAR {
        let parts = ((x.mantissa as u128) << distance) + y.mantissa as u128;
        round(parts, y.exponent + at, toward)
    } else {
        let parts = ((x.mantissa as u128) << FAR) + trace(y);
        round(parts, x.exponent - FAR + at, toward)
    }
}

#[inline]
fn difference(x: Magnitude, y: Magnitude, at: u16, toward: Toward) -> Option<Magnitude>
    requires at_high { 1023 ≤ at }
    requires at_fits { at ≤ 1024 }
    requires ordered { size_of y ≤ size_of x }
    ensures { IsSized toward ((size_of x - size_of y) * 2 ^ at) fine result }
{
    let distance = x.exponent - y.exponent;
    if distance <= FAR {
        let parts = ((x.mantissa as u128) << distance) - y.mantissa as u128;
        round(parts, y.exponent + at, toward)
    } else {
        let parts = ((x.mantissa as u128) << FAR) - trace(y);
        round(parts, x.exponent - FAR + at, toward)
    }
}
