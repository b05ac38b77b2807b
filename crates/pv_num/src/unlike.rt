//! Sums of numbers of opposite signs, in single words: one bit below the greater mantissa is all
//! that rounding needs.
ghost use Rattle.std.specs.Prelude.{◌≡◌, ◌↔◌, ◌≢◌, ◌+◌, ◌-◌, ◌*◌, ◌^◌, ◌<◌, ◌≤◌, ◌+ℤ◌, IsTrue, Some, false};
ghost use Rattle.pv_num.specs.Rounding.{rounded};
ghost use Rattle.pv_num.specs.Sizes.{size_of, IsSized, IsWhole, whole_of, is_infinite_of, is_negative_of};

use crate::alike::{fitted, whole};
use crate::magnitude::{Magnitude, Toward};
use crate::num::{End, Num, signed, toward};
use crate::round::bit_length;
use crate::sum::is_smaller;

// The sum of finite numbers of opposite signs.
#[inline(always)]
pub(crate) fn unlike_sum(a: Num, b: Num, side: End) -> Num
    requires a_finite { is_infinite_of a ≡ false }
    requires b_finite { is_infinite_of b ≡ false }
    requires unlike { is_negative_of a ≢ is_negative_of b }
    ensures { result ≡ rounded side (whole_of a +ℤ whole_of b) 1 }
{
    let (x, y) = (a.size(), b.size());
    let smaller = is_smaller(x, y);
    let negative = a.is_negative() ^ smaller;
    let size = distance(x, y, smaller, toward(side, negative));
    signed(negative, Some(size))
}

// What the greater of two sizes is above the smaller one.
#[inline(never)]
fn distance(x: Magnitude, y: Magnitude, smaller: bool, toward: Toward) -> Magnitude
    requires order { IsTrue smaller ↔ (size_of x < size_of y) }
    ensures { IsSized toward ((size_of x - size_of y) + (size_of y - size_of x)) 1 (Some result) }
{
    if smaller {
        size_difference(y, x, toward)
    } else {
        size_difference(x, y, toward)
    }
}

#[inline]
fn size_difference(x: Magnitude, y: Magnitude, toward: Toward) -> Magnitude
    requires ordered { size_of y ≤ size_of x }
    ensures { IsSized toward (size_of x - size_of y) 1 (Some result) }
{
    if x.exponent == 0 {
        return justified(x.mantissa - y.mantissa, 0);
    }
    let exponent = x.exponent - 1;
    let word = x.mantissa * 2 - units(y, exponent, toward.other());
    if word < 0x2000_0000_0000_0000 {
        return justified(word, exponent);
    }
    fitted(word, exponent, toward)
}

// A size as a whole number of 2^exponent.
#[inline(always)]
fn units(size: Magnitude, exponent: u16, toward: Toward) -> u64
    requires near { size.exponent ≤ exponent + 1 }
    ensures whole { IsWhole toward (size_of size) (2 ^ exponent) result }
    ensures exact { exponent ≤ size.exponent → result * 2 ^ exponent ≡ size_of size }
    ensures few { size.exponent < exponent → result ≤ 2 ^ 61 }
{
    if exponent < size.exponent {
        return size.mantissa * 2;
    }
    whole(size.mantissa, exponent - size.exponent, toward)
}

// The size of a mantissa that may begin with zeros.
#[inline]
fn justified(word: u64, exponent: u16) -> Magnitude
    requires fits { word < 2 ^ 62 }
    requires exponent_fits { exponent ≤ 962 }
    ensures { size_of result ≡ word * 2 ^ exponent }
{
    if word == 0 {
        return Magnitude {
            mantissa: 0,
            exponent: 0,
        };
    }
    let free = 62 - bit_length(word as u128);
    if free < exponent {
        return Magnitude {
            mantissa: word << free,
            exponent: exponent - free,
        };
    }
    Magnitude {
        mantissa: word << exponent,
        exponent: 0,
    }
}
