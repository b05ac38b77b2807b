//! The one place where a value is rounded.
ghost use Rattle.std.specs.Prelude.{◌≡◌, ◌+◌, ◌*◌, ◌^◌, ◌<◌, ◌≤◌, ◌↔◌, IsTrue, false};
ghost use Rattle.pv_num.specs.Rounding.{top_size};
ghost use Rattle.pv_num.specs.Sizes.{IsSizeOf, IsSizeAbove, IsFloor, IsCeiling, IsSized, fine};

use crate::magnitude::{FINE_BITS, LARGEST, MANTISSA_BITS, Magnitude, TOP_EXPONENT, Toward};

/// The size next to `parts * 2^at / 2^1024` on the side that is asked for; None where it is above
/// all sizes.
#[inline(always)]
pub(crate) fn round(parts: u128, at: u16, toward: Toward) -> Option<Magnitude>
    requires { at ≤ 4096 }
    ensures { IsSized toward (parts * 2 ^ at) fine result }
{
    if parts == 0 {
        return Some(Magnitude {
            mantissa: 0,
            exponent: 0,
        });
    }
    let exponent = (bit_length(parts) + at).saturating_sub(FINE_BITS + MANTISSA_BITS);
    if exponent > TOP_EXPONENT {
        return beyond(toward);
    }
    let (mantissa, exact) = aligned(parts, at, FINE_BITS + exponent);
    next(mantissa, exponent, exact, toward)
}

// How many bits a number has.
#[inline]
pub(crate) fn bit_length(parts: u128) -> u16
    requires { 0 < parts }
    ensures positive { 0 < result }
    ensures fits { result ≤ 128 }
    ensures above { parts < 2 ^ result }
    ensures below { 2 ^ result ≤ 2 * parts }
{
    128 - parts.leading_zeros() as u16
}

// The whole part of `parts * 2^at / 2^cut`, and whether nothing is left.
#[inline]
fn aligned(parts: u128, at: u16, cut: u16) -> (u64, bool)
    requires positive { 0 < parts }
    requires fits { parts * 2 ^ at < 2 ^ (62 + cut) }
    requires cut_fits { cut ≤ 4096 }
    ensures below { result.0 * 2 ^ cut ≤ parts * 2 ^ at }
    ensures above { parts * 2 ^ at < (result.0 + 1) * 2 ^ cut }
    ensures exact { IsTrue result.1 ↔ (result.0 * 2 ^ cut ≡ parts * 2 ^ at) }
{
    if cut <= at {
        return ((parts << (at - cut)) as u64, true);
    }
    let dropped = cut - at;
    if dropped >= 128 {
        return (0, false);
    }
    let kept = parts >> dropped;
    let back = kept << dropped;
    (kept as u64, back == parts)
}

// The rounding of a size above the largest.
#[cold]
#[inline(never)]
pub(crate) fn beyond(toward: Toward) -> Option<Magnitude>
    ensures largest { toward ≡ Toward.Zero → IsSizeOf result top_size }
    ensures none { toward ≡ Toward.Away → result ≡ None }
{
    match toward {
        Toward::Zero => Some(LARGEST),
        Toward::Away => None,
    }
}

// The size itself, or the next one for a value that lies between the two.
#[inline]
pub(crate) fn next(mantissa: u64, exponent: u16, exact: bool, toward: Toward) -> Option<Magnitude>
    requires mantissa_fits { mantissa < 2 ^ 62 }
    requires exponent_fits { exponent ≤ 962 }
    requires justified { 0 < exponent → 2 ^ 61 ≤ mantissa }
    ensures kept_exact { IsTrue exact → IsSizeOf result (mantissa * 2 ^ exponent) }
    ensures kept_zero { toward ≡ Toward.Zero → IsSizeOf result (mantissa * 2 ^ exponent) }
    ensures raised { exact ≡ false → toward ≡ Toward.Away → IsSizeAbove result mantissa exponent }
{
    match toward {
        Toward::Zero => Some(Magnitude { mantissa, exponent }),
        Toward::Away => {
            if exact {
                Some(Magnitude { mantissa, exponent })
            } else {
                raised(mantissa, exponent)
            }
        }
    }
}

// The next size.
#[inline]
fn raised(mantissa: u64, exponent: u16) -> Option<Magnitude>
    requires mantissa_fits { mantissa < 2 ^ 62 }
    requires exponent_fits { exponent ≤ 962 }
    requires justified { 0 < exponent → 2 ^ 61 ≤ mantissa }
    ensures { IsSizeAbove result mantissa exponent }
{
    if mantissa < 0x3fff_ffff_ffff_ffff {
        return Some(Magnitude {
            mantissa: mantissa + 1,
            exponent,
        });
    }
    carried(mantissa, exponent)
}

// The next size where the mantissa has no bit left that is 0.
#[cold]
#[inline(never)]
fn carried(mantissa: u64, exponent: u16) -> Option<Magnitude>
    requires mantissa_full { mantissa + 1 ≡ 2 ^ 62 }
    requires exponent_fits { exponent ≤ 962 }
    ensures { IsSizeAbove result mantissa exponent }
{
    if exponent == TOP_EXPONENT {
        return None;
    }
    Some(Magnitude {
        mantissa: 0x2000_0000_0000_0000,
        exponent: exponent + 1,
    })
}
