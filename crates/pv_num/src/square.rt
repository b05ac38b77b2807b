//! Square roots: the whole part of the square root of a whole number of 124 bits is found by
//! products, and tried by one comparison.
ghost use Rattle.std.specs.Prelude.{◌≡◌, ◌+◌, ◌-◌, ◌*◌, ◌^◌, ◌<◌, ◌≤◌, pos, IfSome, IsTrue, true, false};
ghost use Rattle.pv_num.specs.Extended.{Fin};
ghost use Rattle.pv_num.specs.Roots.{size_at, is_reached, first_index, IsSquareOf};
ghost use Rattle.pv_num.specs.Sizes.{size_of};

use crate::magnitude::Magnitude;
use crate::num::{End, Num};

// Of a square root, the first index whose square is beyond a number. None for numbers below 2^-450
// and for other roots.
pub(crate) fn first_of_squares(z: Num, n: u8, side: End) -> Option<u128>
    ensures fits { IfSome result (λ i. i < 962 * 2 ^ 61 + 2 ^ 62) }
    ensures below { IfSome result (λ i. 0 < i → is_reached side z n (size_at (i - 1)) ≡ false) }
    ensures here { IfSome result (λ i. is_reached side z n (size_at i) ≡ true) }
{
    if n != 2 || z.is_negative() || z.is_infinite() {
        return None;
    }
    first_of_size(z.size(), side)
}

// The same for a size.
fn first_of_size(z: Magnitude, side: End) -> Option<u128>
    ensures fits { IfSome result (λ i. i < 962 * 2 ^ 61 + 2 ^ 62) }
    ensures below { IfSome result (λ i. 0 < i →
        is_reached side (Fin (pos (size_of z))) 2 (size_at (i - 1)) ≡ false) }
    ensures here { IfSome result (λ i. is_reached side (Fin (pos (size_of z))) 2 (size_at i) ≡
        true) }
{
    if z.exponent == 0 {
        return None;
    }
    let square = as_square(z);
    let root = whole_root(square.wide);
    if root < LEAST_ROOT || LEAST_ROOT * 2 <= root {
        return None;
    }
    let within = root as u128 * root as u128;
    if square.wide < within || root as u128 * 2 < square.wide - within {
        return None;
    }
    let index = square.half as u128 * LEAST_ROOT as u128 + root as u128;
    Some(first_behind(index, side, within == square.wide))
}

// Whether the index of an exact root is itself the first.
fn first_behind(index: u128, side: End, exact: bool) -> u128
    requires { index < 2 ^ 127 }
    ensures { result ≡ first_index side exact index }
{
    match side {
        End::Down => index + 1,
        End::Up => if exact { index } else { index + 1 },
    }
}

// A size as a whole number of 123 or 124 bits times a square of a power of 2.
#[derive(Clone, Copy)]
struct Square {
    wide: u128,
    half: u16,
}

const LEAST_ROOT: u64 = 0x2000_0000_0000_0000;

// A size times 2^512 is `wide` times the square of 2^half.
fn as_square(z: Magnitude) -> Square
    requires { 0 < z.exponent }
    ensures square { IsSquareOf z.mantissa z.exponent result.wide result.half }
    ensures few { result.half ≤ 706 }
    ensures wide { result.wide < 2 ^ 124 }
{
    let mantissa = z.mantissa as u128;
    if z.exponent % 2 == 1 {
        Square {
            wide: mantissa * 0x2000_0000_0000_0000,
            half: (z.exponent + 451) / 2,
        }
    } else {
        Square {
            wide: mantissa * 0x4000_0000_0000_0000,
            half: (z.exponent + 450) / 2,
        }
    }
}

// A line below 1 / sqrt(x), near it for x from 1/4 to 1: its value at 0 times 2^31, and its fall
// times 2^15.
const START: u64 = 0xfc18_0000;

const FALL: u64 = 0x90e3;

const NEWTON_STEPS: u8 = 4;

const WORD: u128 = 0x1_0000_0000_0000_0000;

// The whole part of the square root of a number of 123 or 124 bits.
pub(crate) fn whole_root(wide: u128) -> u64 {
    let part = ((wide >> 92) % 0x1_0000_0000) as u32;
    let mut inverse = (START - (part as u64 * FALL >> 16)) as u32;
    for _ in 0..NEWTON_STEPS {
        inverse = nearer(part, inverse);
    }
    // a little too small, so that the square is below the number
    let inverse = inverse.saturating_sub(4);
    let root = part as u64 * inverse as u64 / 2;
    last_step(
        wide,
        corrected(wide, corrected(wide, root, inverse), inverse),
    )
}

// One step of Newton's method for 1 / sqrt(part / 2^32), times 2^31: x + x (1 - part x^2) / 2.
#[inline]
fn nearer(part: u32, inverse: u32) -> u32 {
    let root = (part as u64 * inverse as u64 >> 32) as u32;
    let square = root as u64 * inverse as u64;
    let missing = (0x4000_0000_0000_0000u64.saturating_sub(square) >> 31) as u32;
    let more = missing as u64 * inverse as u64 >> 32;
    inverse.saturating_add(more as u32)
}

// A root of which twice as many bits are right: x + (wide - x^2) / (2 sqrt(wide)).
#[inline]
fn corrected(wide: u128, root: u64, inverse: u32) -> u64 {
    let square = root as u128 * root as u128;
    // the first root is right to 28 bits, so that the rest has at most 97
    let rest = ((wide.saturating_sub(square) >> 34) % WORD) as u64;
    let more = (rest as u128 * inverse as u128 >> 60) % WORD;
    root.saturating_add(more as u64)
}

// The corrected root is too small by one at most.
#[inline]
fn last_step(wide: u128, root: u64) -> u64 {
    let rest = wide.saturating_sub(root as u128 * root as u128);
    if root as u128 * 2 < rest {
        root.saturating_add(1)
    } else {
        root
    }
}
