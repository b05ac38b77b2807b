//! Products and powers.
ghost use Rattle.std.specs.Prelude.{◌≡◌, ◌↔◌, ◌+◌, ◌*◌, ◌^◌, ◌<◌, ◌≤◌, ◌⊎◌, pos, IsTrue, Some, true};
ghost use Rattle.pv_num.specs.Extended.{Fin};
ghost use Rattle.pv_num.specs.Order.{le};
ghost use Rattle.pv_num.specs.Grid.{unit};
ghost use Rattle.pv_num.specs.Rounding.{rounded};
ghost use Rattle.pv_num.specs.Sizes.{size_of, is_infinite_of, with_sign, IsSized, IsWhole};
ghost use Rattle.pv_num.specs.Arithmetic.{mul_of, pow_of};
ghost use Rattle.pv_num.specs.declared.num.End.{End as EndOf};

use crate::alike::{fitted, whole};
use crate::magnitude::{Magnitude, Toward};
use crate::num::{End, Num, infinite, nonzero, signed, toward};
use crate::round::round;

// From here on a product of mantissas has all bits that a rounded one needs.
const FULL: u128 = 0x400_0000_0000_0000_0000_0000_0000_0000;

// From here on it has a bit more.
const LONG: u128 = 0x800_0000_0000_0000_0000_0000_0000_0000;

// Sums of exponents between which a full product is neither near 0 nor above all sizes.
const LEAST_SCALE: u16 = 451;

const GREATEST_SCALE: u16 = 1412;

impl Num {
    /// The product, rounded to a side. Zero times an infinite end is zero.
    #[inline(always)]
    pub fn mul(self, other: Num, side: End) -> Num
        ensures { result ≡ mul_of side self other }
    {
        if self.is_infinite() {
            return infinite_product(self, other);
        }
        if other.is_infinite() {
            return infinite_product(self, other);
        }
        let negative = !self.is_alike(other);
        product(negative, self.size(), other.size(), side)
    }

    /// The n-th power of a number that is not negative: n - 1 products, each rounded to the side,
    /// from the left.
    pub fn pow(self, n: u8, side: End) -> Num
        requires not_negative { IsTrue (le (Fin (pos 0)) self) }
        requires exponent { n ≤ 32 }
        ensures { result ≡ pow_of side self n }
    {
        if n == 0 {
            return Num::ONE;
        }
        if n == 2 {
            return self.mul(self, side);
        }
        let mut power = self;
        for _ in 1..n {
            power = power.mul(self, side);
        }
        power
    }
}

#[inline(always)]
fn infinite_product(a: Num, b: Num) -> Num
    requires { (is_infinite_of a ≡ true) ⊎ (is_infinite_of b ≡ true) }
    ensures { (side : EndOf) → result ≡ mul_of side a b }
{
    if a.is_zero() {
        return Num::ZERO;
    }
    if b.is_zero() {
        return Num::ZERO;
    }
    infinite(a.is_negative() ^ b.is_negative())
}

// The product of two sizes, as a number of a sign.
#[inline(always)]
fn product(negative: bool, x: Magnitude, y: Magnitude, side: End) -> Num
    ensures { result ≡ rounded side (with_sign negative (size_of x * size_of y)) unit }
{
    let toward = toward(side, negative);
    let parts = x.mantissa as u128 * y.mantissa as u128;
    let scale = x.exponent + y.exponent;
    if parts < FULL || scale < LEAST_SCALE || scale > GREATEST_SCALE {
        return signed(negative, rare_product(parts, scale, toward));
    }
    nonzero(negative, full_product(parts, scale, toward))
}

// A product that is small, or near 0, or above all sizes.
#[cold]
#[inline(never)]
fn rare_product(parts: u128, scale: u16, toward: Toward) -> Option<Magnitude>
    requires { scale ≤ 2048 }
    ensures { IsSized toward (parts * 2 ^ scale) unit result }
{
    round(parts, scale + 512, toward)
}

// A product of 123 or 124 bits.
#[inline(always)]
fn full_product(parts: u128, scale: u16, toward: Toward) -> Magnitude
    requires full { 2 ^ 122 ≤ parts }
    requires fits { parts + 2 ^ 62 ≤ 2 ^ 124 }
    requires scale_high { 451 ≤ scale }
    requires scale_fits { scale ≤ 1412 }
    ensures not_zero { 0 < size_of result }
    ensures sized { IsSized toward (parts * 2 ^ scale) unit (Some result) }
{
    let word = cut(parts, toward);
    let exponent = scale - LEAST_SCALE;
    if parts >= LONG {
        return Magnitude {
            mantissa: whole(word, 1, toward),
            exponent: exponent + 1,
        };
    }
    fitted(word, exponent, toward)
}

// `parts / 2^61` as a whole number.
#[inline(always)]
fn cut(parts: u128, toward: Toward) -> u64
    requires full { 2 ^ 122 ≤ parts }
    requires fits { parts + 2 ^ 62 ≤ 2 ^ 124 }
    ensures full { 2 ^ 61 ≤ result }
    ensures long { 2 ^ 123 ≤ parts → 2 ^ 62 ≤ result }
    ensures fits { result + 1 < 2 ^ 63 }
    ensures whole { IsWhole toward parts (2 ^ 61) result }
{
    let up = toward.up();
    ((parts - up as u128) >> 61) as u64 + up
}
