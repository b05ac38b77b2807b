//! Sums of numbers of one sign, in single words: nothing cancels, so the greater size fixes the
//! exponent, and the class of the sum is that of both numbers.
ghost use Rattle.std.specs.Prelude.{◌≡◌, ◌↔◌, ℕ, ◌+◌, ◌*◌, ◌^◌, ◌<◌, ◌≤◌, ◌+ℤ◌, IsTrue, Some, true, false};
ghost use Rattle.pv_num.specs.Rounding.{rounded};
ghost use Rattle.pv_num.specs.Sizes.{size_of, IsSized, IsWhole, whole_of, with_sign, is_infinite_of, is_negative_of};

use crate::magnitude::{Magnitude, TOP_EXPONENT, Toward};
use crate::num::{End, Num, signed, toward};
use crate::round::beyond;

// The sum of finite numbers of one sign.
#[inline(always)]
pub(crate) fn alike_sum(a: Num, b: Num, side: End) -> Num
    requires a_finite { is_infinite_of a ≡ false }
    requires b_finite { is_infinite_of b ≡ false }
    requires alike { is_negative_of a ≡ is_negative_of b }
    ensures { result ≡ rounded side (whole_of a +ℤ whole_of b) 1 }
{
    let (x, y) = (a.size(), b.size());
    if x.exponent < y.exponent {
        ordered_sum(a, y, x, side)
    } else {
        ordered_sum(a, x, y, side)
    }
}

// The sum of two sizes, as a number of the sign that `like` has.
#[inline(always)]
fn ordered_sum(like: Num, x: Magnitude, y: Magnitude, side: End) -> Num
    requires finite { is_infinite_of like ≡ false }
    requires not_zero { is_negative_of like ≡ true → 0 < size_of x }
    requires ordered { y.exponent ≤ x.exponent }
    ensures { result ≡ rounded side (with_sign (is_negative_of like) (size_of x + size_of y)) 1 }
{
    let negative = like.is_negative();
    let toward = toward(side, negative);
    let sum = x.mantissa + whole(y.mantissa, x.exponent - y.exponent, toward);
    if sum >= 0x4000_0000_0000_0000 && x.exponent == TOP_EXPONENT {
        return signed(negative, beyond(toward));
    }
    like.with_size(fitted(sum, x.exponent, toward))
}

// The size of a value of 62 or 63 bits that was rounded to a whole number of units.
#[inline(always)]
pub(crate) fn fitted(word: u64, exponent: u16, toward: Toward) -> Magnitude
    requires fits { word + 1 < 2 ^ 63 }
    requires exponent_fits { exponent ≤ 962 }
    requires room { 2 ^ 62 ≤ word → exponent < 962 }
    requires justified { 0 < exponent → 2 ^ 61 ≤ word }
    ensures not_zero { 0 < word → 0 < size_of result }
    ensures sized { (v : ℕ) (b : ℕ) → 0 < b → (0 < exponent → 2 ^ 61 * (2 ^ exponent * b) ≤ v) →
        IsWhole toward v (2 ^ exponent * b) word → IsSized toward v b (Some result) }
{
    if word < 0x4000_0000_0000_0000 {
        return Magnitude {
            mantissa: word,
            exponent,
        };
    }
    Magnitude {
        mantissa: whole(word, 1, toward),
        exponent: exponent + 1,
    }
}

// `mantissa / 2^distance` as a whole number.
#[inline(always)]
pub(crate) fn whole(mantissa: u64, distance: u16, toward: Toward) -> u64
    requires { mantissa < 2 ^ 63 }
    ensures fits { result ≤ mantissa }
    ensures whole { IsWhole toward mantissa (2 ^ distance) result }
{
    let up = toward.up() as i64;
    (((mantissa as i64 - up) >> reach(distance)) + up) as u64
}

// A distance of 63 leaves nothing of a mantissa, as do all further ones.
#[inline(always)]
fn reach(distance: u16) -> u16
    ensures near { distance < 63 → result ≡ distance }
    ensures far { 63 ≤ distance → result ≡ 63 }
{
    if distance < 63 { distance } else { 63 }
}
