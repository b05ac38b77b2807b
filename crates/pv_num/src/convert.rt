//! Numbers from and to whole mantissas and exponents.
ghost use Rattle.std.specs.Prelude.{◌≡◌, ◌+◌, ◌*◌, ◌/◌, ◌%◌, ◌^◌, ◌<◌, ◌≤◌, pos, IsTrue};
ghost use Rattle.pv_num.specs.Extended.{Fin};
ghost use Rattle.pv_num.specs.Order.{le};
ghost use Rattle.pv_num.specs.Grid.{unit};
ghost use Rattle.pv_num.specs.Sizes.{size_of, fine, with_sign, IsExact};
ghost use Rattle.pv_num.specs.Arithmetic.{floor_of};
ghost use Rattle.pv_num.specs.Parts.{IsFin, IsFineExponent, IsPartsOf, parts_of};

use crate::magnitude::{Magnitude, Toward};
use crate::num::{Num, signed};
use crate::round::round;
use crate::sum::is_smaller;

/// A number in its canonical spelling: in a `Fin`, `m` is odd, or `m` and `e` are both 0.
#[derive(Clone, Copy, Debug, PartialEq, Eq)]
pub enum Parts {
    /// The lower end.
    NegInf,
    /// The number m * 2^e.
    Fin { m: i64, e: i16 },
    /// The upper end.
    PosInf,
}

impl Num {
    /// The number m * 2^e. None exactly where it is no number of the format.
    pub fn fin(m: i64, e: i16) -> Option<Num>
        ensures { IsFin m e result }
    {
        if m == 0 {
            return Some(Num::ZERO);
        }
        let at = fine_exponent(e)?;
        let size = exact_size(m.unsigned_abs(), at)?;
        Some(signed(m < 0, Some(size)))
    }

    /// The canonical parts.
    pub fn parts(self) -> Parts
        ensures value { result ≡ parts_of self }
        ensures canonical { IsPartsOf self result }
    {
        let negative = self.is_negative();
        if self.is_infinite() {
            return if negative {
                Parts::NegInf
            } else {
                Parts::PosInf
            };
        }
        odd_parts(self.size(), negative)
    }

    /// The greatest whole number that is not above a number from 0 to `top`.
    pub fn floor(self, top: u64) -> u64
        requires low { IsTrue (le (Fin (pos 0)) self) }
        requires high { IsTrue (le self (Fin (pos (top * unit)))) }
        ensures { result ≡ floor_of self }
    {
        whole_part(self.size())
    }
}

// The exponent in the units of `round`; None for one with which only 0 is a number of the format.
fn fine_exponent(e: i16) -> Option<u16>
    ensures { IsFineExponent e result }
{
    let at = e as i32 + 1536;
    if at < 0 {
        return None;
    }
    if at > 4096 {
        return None;
    }
    Some(at as u16)
}

// The size that is exactly `m * 2^at / 2^1024`.
fn exact_size(m: u64, at: u16) -> Option<Magnitude>
    requires { at ≤ 4096 }
    ensures { IsExact (m * 2 ^ at) result }
{
    let above = round(m as u128, at, Toward::Away)?;
    let below = round(m as u128, at, Toward::Zero)?;
    if is_smaller(below, above) {
        None
    } else {
        Some(below)
    }
}

fn odd_parts(size: Magnitude, negative: bool) -> Parts
    ensures { result ≡ parts_of (Fin (with_sign negative (size_of size))) }
{
    if size.mantissa == 0 {
        return Parts::Fin { m: 0, e: 0 };
    }
    let (odd, zeros) = odd_part(size.mantissa);
    let m = odd as i64;
    let e = (size.exponent + zeros) as i16 - 512;
    if negative {
        Parts::Fin { m: -m, e }
    } else {
        Parts::Fin { m, e }
    }
}

// A number without its factors 2, and how many these are.
fn odd_part(m: u64) -> (u64, u16)
    requires positive { 0 < m }
    requires fits { m < 2 ^ 62 }
    ensures value { result.0 * 2 ^ result.1 ≡ m }
    ensures odd { result.0 % 2 ≡ 1 }
    ensures fits { result.0 < 2 ^ 62 }
    ensures few { result.1 < 64 }
{
    let zeros = m.trailing_zeros() as u16;
    (m >> zeros, zeros)
}

fn whole_part(size: Magnitude) -> u64
    requires { size_of size < 2 ^ 64 * unit }
    ensures { result ≡ size_of size / unit }
{
    if size.exponent >= 512 {
        return size.mantissa << (size.exponent - 512);
    }
    let dropped = 512 - size.exponent;
    if dropped < 64 {
        size.mantissa >> dropped
    } else {
        0
    }
}
