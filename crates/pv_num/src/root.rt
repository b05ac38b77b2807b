//! Roots.
ghost use Rattle.std.specs.Prelude.{◌≡◌, ◌+◌, ◌-◌, ◌*◌, ◌^◌, ◌<◌, ◌≤◌, ◌≢◌, pos, IsTrue, true, false};
ghost use Rattle.pv_num.specs.Extended.{Fin, PosInf};
ghost use Rattle.pv_num.specs.Order.{le};
ghost use Rattle.pv_num.specs.Arithmetic.{root_of};
ghost use Rattle.pv_num.specs.Roots.{size_at, is_reached};
ghost use Rattle.pv_num.specs.declared.num.End.TheVariants.{Down, Up};

use crate::num::{Class, End, Num};
use crate::square::first_of_squares;

// The sizes have indexes without gaps: 0 has the index 0, and the largest size this one.
const TOP_INDEX: u128 = 962 * 0x2000_0000_0000_0000 + 0x3fff_ffff_ffff_ffff;

impl Num {
    /// The n-th root of a number that is not negative. Down: the greatest finite number whose
    /// power, rounded up, is at most this one. Up: the least finite number whose power, rounded
    /// down, is at least this one, or +oo for +oo.
    pub fn root(self, n: u8, side: End) -> Num
        requires not_negative { IsTrue (le (Fin (pos 0)) self) }
        requires exponent { (1 ≤ n) × (n ≤ 32) }
        requires finite_below { side ≡ Down → self ≢ PosInf }
        ensures { result ≡ root_of side self n }
    {
        match side {
            End::Down => root_down(self, n),
            End::Up => {
                if self == Num::POS_INF {
                    return self;
                }
                root_up(self, n)
            }
        }
    }
}

fn root_down(z: Num, n: u8) -> Num
    requires { (1 ≤ n) × (n ≤ 32) }
    ensures { result ≡ root_of Down z n }
{
    let first = first_reached(z, n, End::Down);
    number_at(first.saturating_sub(1))
}

fn root_up(z: Num, n: u8) -> Num
    requires exponent { (1 ≤ n) × (n ≤ 32) }
    requires not_negative { IsTrue (le (Fin (pos 0)) z) }
    requires finite { z ≢ PosInf }
    ensures { result ≡ root_of Up z n }
{
    let first = first_reached(z, n, End::Up);
    if first > TOP_INDEX {
        return Num::POS_INF;
    }
    number_at(first)
}

// The first index whose size is reached, or the one behind the last.
fn first_reached(z: Num, n: u8, side: End) -> u128
    requires { (1 ≤ n) × (n ≤ 32) }
    ensures fits { result ≤ 962 * 2 ^ 61 + 2 ^ 62 }
    ensures below { 0 < result → is_reached side z n (size_at (result - 1)) ≡ false }
    ensures here { result < 962 * 2 ^ 61 + 2 ^ 62 → is_reached side z n (size_at result) ≡ true }
{
    match first_of_squares(z, n, side) {
        Some(first) => first,
        None => searched(z, n, side),
    }
}

// The first index whose size is reached, found by a search.
fn searched(z: Num, n: u8, side: End) -> u128
    requires { (1 ≤ n) × (n ≤ 32) }
    ensures fits { result ≤ 962 * 2 ^ 61 + 2 ^ 62 }
    ensures below { 0 < result → is_reached side z n (size_at (result - 1)) ≡ false }
    ensures here { result < 962 * 2 ^ 61 + 2 ^ 62 → is_reached side z n (size_at result) ≡ true }
{
    let mut low: u128 = 0;
    let mut high = TOP_INDEX + 1;
    let mut step = 1u128;
    let mut at = guess(z, n).min(TOP_INDEX);
    while low < high {
        let reached = reaches(z, n, side, at);
        (low, high) = narrowed(low, high, at, reached);
        at = next_probe(low, high, step, reached);
        step = (step * 2).min(TOP_INDEX);
    }
    low
}

#[inline]
fn narrowed(low: u128, high: u128, at: u128, reached: bool) -> (u128, u128)
    requires { at < 2 ^ 127 }
    ensures reached { reached ≡ true → (result.0 ≡ low) × (result.1 ≡ at) }
    ensures missed { reached ≡ false → (result.0 ≡ at + 1) × (result.1 ≡ high) }
{
    if reached { (low, at) } else { (at + 1, high) }
}

// An index between: near the end that moved last, and by doubled steps away from it, as far as the
// middle.
#[inline]
fn next_probe(low: u128, high: u128, step: u128, reached: bool) -> u128
    requires ordered { low ≤ high }
    requires step { 0 < step }
    ensures { low < high → (low ≤ result) × (result < high) }
{
    let half = (high - low) / 2;
    if reached {
        high - step.min(high - low - half)
    } else {
        low + (step - 1).min(half)
    }
}

// Whether the power of an index's size is beyond the number.
fn reaches(z: Num, n: u8, side: End, index: u128) -> bool
    requires exponent { (1 ≤ n) × (n ≤ 32) }
    requires index { index < 962 * 2 ^ 61 + 2 ^ 62 }
    ensures { result ≡ is_reached side z n (size_at index) }
{
    let number = number_at(index);
    match side {
        End::Down => {
            let within = number.pow(n, End::Up) <= z;
            !within
        }
        End::Up => z <= number.pow(n, End::Down),
    }
}

// Where to look first. Nothing rests on it.
fn guess(z: Num, n: u8) -> u128
    requires { (1 ≤ n) × (n ≤ 32) }
{
    if z.mantissa == 0 {
        return 0;
    }
    if z.class != Class::NonNegative {
        return TOP_INDEX / 2;
    }
    near_root(z, n)
}

// The index of a root: near it by the mantissa alone, and then by one step of Newton's method with
// all bits.
fn near_root(z: Num, n: u8) -> u128
    requires { (1 ≤ n) × (n ≤ 32) }
{
    let x = number_at(by_mantissa(z, n).min(TOP_INDEX));
    let power = x.pow(n, End::Down);
    let rest = z.sub(power, End::Down);
    let more = share_of_rest(z, n, x.mantissa, rest) as u128;
    let index = x.exponent as u128 * 0x2000_0000_0000_0000 + x.mantissa as u128;
    if rest < Num::ZERO {
        index.saturating_sub(more)
    } else {
        index + more
    }
}

// x rest / (n z), in units of x's mantissa.
fn share_of_rest(z: Num, n: u8, mantissa: u64, rest: Num) -> u64
    requires { (1 ≤ n) × (n ≤ 32) }
{
    let of = ((z.mantissa >> 31) % HALF_WORD * n as u64).max(1);
    let share = (mantissa >> 31) % HALF_WORD * ((rest.mantissa >> 31) % HALF_WORD) / of;
    let distance = z.exponent.saturating_sub(rest.exponent).saturating_sub(31);
    share >> distance.min(63)
}

const HALF_WORD: u64 = 0x8000_0000;

// From an error of less than a hundredth on, each step doubles the number of right bits.
#[inline]
fn newton_steps(n: u8) -> u8 {
    if n <= 16 { 3 } else { 4 }
}

// The index of a root, right to 40 bits or so. With z = w 2^j (2^k)^n, w from 1 to 2 and j below n,
// it is the inverse root of w 2^j that is found, a number from 1/2 to 1.
fn by_mantissa(z: Num, n: u8) -> u128
    requires { (1 ≤ n) × (n ≤ 32) }
{
    let zeros = z.mantissa.leading_zeros().min(63);
    let word = z.mantissa << zeros;
    // a whole multiple of n is added to the exponent, so that it is not below 0
    let exponent = z.exponent as u64 + (63 - zeros) as u64 + UNIT_BITS * (n as u64 - 1);
    let share = ONE_IN_32_BITS / n as u64 + 1;
    let whole = exponent * share / ONE_IN_32_BITS;
    let twos = exponent.saturating_sub(whole * n as u64);
    let mut inverse = by_logarithm((word >> 47) % ONE_BELOW, twos % 32, share);
    for _ in 0..newton_steps(n) {
        inverse = nearer(word >> 9, inverse, n, twos, share);
    }
    let root = scaled(word >> 9, inverse, n - 1, twos);
    whole.saturating_sub(61) as u128 * 0x2000_0000_0000_0000 + root as u128 * 0x80
}

const ONE_IN_32_BITS: u64 = 0x1_0000_0000;

// Where the inverse root of (1 + fraction) 2^twos lies, with 41 bits behind the point; `share` is 1
// / n in 32 bits.
#[inline]
fn by_logarithm(fraction: u64, twos: u64, share: u64) -> u64
    requires fraction { fraction < 65536 }
    requires twos { twos < 32 }
    requires share { share ≤ 4294967297 }
    ensures { result < 2 ^ 42 }
{
    let logarithm = twos * ONE_BELOW + fraction + bend(fraction);
    let part = logarithm * share / ONE_IN_32_BITS;
    let down = ONE_BELOW - part % ONE_BELOW;
    (ONE_BELOW + down - bend(down)) * 0x100_0000
}

// One step of Newton's method for the inverse root y of w 2^twos: y + y (1 - w 2^twos y^n) / n.
#[inline]
fn nearer(word: u64, inverse: u64, n: u8, twos: u64, share: u64) -> u64
    requires { share ≤ 4294967297 }
{
    let power = scaled(word, inverse, n, twos);
    let part = ((inverse as u128 * share as u128 >> 41) % WORD) as u64;
    let missing = ONE_IN_54_BITS.saturating_sub(power) as u128 * part as u128 >> 45;
    let beyond = power.saturating_sub(ONE_IN_54_BITS) as u128 * part as u128 >> 45;
    inverse
        .saturating_add((missing % WORD) as u64)
        .saturating_sub((beyond % WORD) as u64)
}

const ONE_IN_54_BITS: u64 = 0x40_0000_0000_0000;

const WORD: u128 = 0x1_0000_0000_0000_0000;

// w 2^twos y^count, with as many bits behind the point as w has; y has 41, and count is not below
// twos.
#[inline]
fn scaled(word: u64, inverse: u64, count: u8, twos: u64) -> u64 {
    let mut product = word;
    for i in 0..count {
        let doubled = (i as u64) < twos;
        product = ((product as u128 * inverse as u128 >> places(doubled)) % WORD) as u64;
    }
    product
}

#[inline]
fn places(doubled: bool) -> u16
    ensures { result ≤ 41 }
{
    if doubled { 40 } else { 41 }
}

const ONE_BELOW: u64 = 0x1_0000;

// The exponent of 1.
const UNIT_BITS: u64 = 512;

// What the logarithm of 1 + x is above x, for x from 0 to 1, both times 2^16; 2^x is as much below
// 1 + x.
fn bend(x: u64) -> u64
    requires { x ≤ 65536 }
    ensures { result ≤ x }
{
    x * (ONE_BELOW - x) / ONE_BELOW * 22_500 / ONE_BELOW
}

// The number of an index.
fn number_at(index: u128) -> Num
    requires { index < 962 * 2 ^ 61 + 2 ^ 62 }
    ensures value { result ≡ Fin (pos (size_at index)) }
    ensures not_negative { IsTrue (le (Fin (pos 0)) result) }
{
    let block = (index >> 61) as u16;
    let exponent = block.saturating_sub(1);
    Num {
        class: Class::NonNegative,
        exponent,
        mantissa: (index - exponent as u128 * 0x2000_0000_0000_0000) as u64,
    }
}
