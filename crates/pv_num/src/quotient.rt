//! Quotients and ratios.
ghost use Rattle.std.specs.Prelude.{◌≡◌, ◌+◌, ◌*◌, ◌^◌, ◌<◌, ◌≤◌, ◌≢◌, pos, unsigned_abs};
ghost use Rattle.pv_num.specs.Extended.{Fin};
ghost use Rattle.pv_num.specs.Grid.{unit};
ghost use Rattle.pv_num.specs.Sizes.{size_of, IsSized};
ghost use Rattle.pv_num.specs.Arithmetic.{div_of, ratio_of};

use crate::magnitude::{Magnitude, Toward};
use crate::num::{End, Num, infinite, signed, toward};
use crate::round::{bit_length, round};

impl Num {
    /// The quotient, rounded to a side. Anything over an infinite end is zero.
    pub fn div(self, other: Num, side: End) -> Num
        requires { other ≢ Fin (pos 0) }
        ensures { result ≡ div_of side self other }
    {
        if other.is_infinite() {
            return Num::ZERO;
        }
        let negative = self.is_negative() ^ other.is_negative();
        if self.is_infinite() {
            return infinite(negative);
        }
        let size = quotient(self.size(), other.size(), toward(side, negative));
        signed(negative, size)
    }

    /// The ratio p / q, rounded to a side.
    pub fn from_ratio(p: i128, q: u128, side: End) -> Num
        requires p_fits { unsigned_abs p < 10 ^ 37 }
        requires q_positive { 1 ≤ q }
        requires q_fits { q ≤ 10 ^ 36 }
        ensures { result ≡ ratio_of side p q }
    {
        let negative = p < 0;
        let size = ratio(p.unsigned_abs(), q, toward(side, negative));
        signed(negative, size)
    }
}

fn quotient(x: Magnitude, y: Magnitude, toward: Toward) -> Option<Magnitude>
    requires { 0 < size_of y }
    ensures { IsSized toward (size_of x * unit) (size_of y) result }
{
    if x.mantissa == 0 {
        return round(0, 0, toward);
    }
    let (n, shift) = left_aligned(x.mantissa as u128, 126);
    let d = y.mantissa as u128;
    let q = n / d;
    let parts = 2 * q + inexact(n - q * d);
    round(parts, x.exponent + 1535 - y.exponent - shift, toward)
}

// 1 where a rest is not 0: more than a whole part, and less than the next one.
#[inline]
fn inexact(rest: u128) -> u128
    ensures none { rest ≡ 0 → result ≡ 0 }
    ensures some { 0 < rest → result ≡ 1 }
{
    if rest == 0 { 0 } else { 1 }
}

// A number shifted so that it has `bits` bits, and by how much.
#[inline]
fn left_aligned(n: u128, bits: u16) -> (u128, u16)
    requires positive { 0 < n }
    requires fits { n < 2 ^ bits }
    requires bits_fit { bits ≤ 128 }
    ensures value { result.0 ≡ n * 2 ^ result.1 }
    ensures low { 2 ^ bits ≤ 2 * result.0 }
    ensures high { result.0 < 2 ^ bits }
    ensures shift { result.1 < bits }
{
    let shift = bits - bit_length(n);
    (n << shift, shift)
}

fn ratio(p: u128, q: u128, toward: Toward) -> Option<Magnitude>
    requires p_fits { p < 2 ^ 123 }
    requires q_positive { 1 ≤ q }
    requires q_fits { q < 2 ^ 120 }
    ensures { IsSized toward (p * unit) q result }
{
    if p == 0 {
        return round(0, 0, toward);
    }
    let (n, up) = left_aligned(p, 126);
    let (d, along) = left_aligned(q, 120);
    let (whole, rest) = long_division(n, d);
    let parts = 2 * whole + inexact(rest);
    round(parts, 1535 + along - up - 63, toward)
}

// n * 2^63 over d, with the rest: nine digits of 7 bits behind the whole part.
fn long_division(n: u128, d: u128) -> (u128, u128)
    requires n_fits { n < 2 ^ 126 }
    requires d_large { 2 ^ 119 ≤ d }
    requires d_fits { d < 2 ^ 120 }
    ensures value { result.0 * d + result.1 ≡ n * 2 ^ 63 }
    ensures rest { result.1 < d }
    ensures fits { result.0 < 2 ^ 70 }
{
    let mut q = n / d;
    let mut rest = n % d;
    for _ in 0..9u8 {
        let (more, left) = next_digit(q, rest, d);
        q = more;
        rest = left;
    }
    (q, rest)
}

#[inline]
fn next_digit(q: u128, rest: u128, d: u128) -> (u128, u128)
    requires q_fits { q < 2 ^ 120 }
    requires rest_less { rest < d }
    requires d_fits { d < 2 ^ 120 }
    ensures value { result.0 * d + result.1 ≡ (q * d + rest) * 128 }
    ensures rest { result.1 < d }
    ensures fits { result.0 < (q + 1) * 128 }
{
    let n = rest * 128;
    (q * 128 + n / d, n % d)
}
