//! Whole powers, by roots.
ghost use Rattle.std.specs.Prelude.{◌≡◌, ◌≢◌, ◌≤◌, pos, if◌then◌else◌};
ghost use Rattle.pv_num.specs.Extended.{Fin, NegInf, PosInf};
ghost use Rattle.pv_num.specs.Grid.{unit};
ghost use Rattle.pv_interval.specs.Bounds.{between};
ghost use Rattle.pv_interval.specs.Tables.{meet_of, nought, holds};
ghost use Rattle.pv_project.specs.Kept.{KeepsPower};
ghost use Rattle.pv_project.specs.Projections.{chain, both_signs, even_roots, back_pow_of, odd_low, odd_high};

use crate::order::{meet_between, meet_both_signs};
use pv_interval::Interval;
use pv_num::{End, Num};

/// The hull of the numbers of `x` whose power `n` lies in `z`; None where there are none. `n` is at
/// most 32.
#[inline]
pub fn back_pow(z: Interval, x: Interval, n: u8) -> Option<Interval>
    requires { n ≤ 32 }
    ensures value { result ≡ back_pow_of z x n }
    ensures kept { KeepsPower z x n result }
{
    narrow_power(z, x, n)
}

fn narrow_power(z: Interval, x: Interval, n: u8) -> Option<Interval>
    requires { n ≤ 32 }
    ensures { result ≡ back_pow_of z x n }
{
    if n == 0 {
        return back_zero(z, x);
    }
    if n % 2 == 0 {
        back_even(z, x, n)
    } else {
        back_odd(z, x, n)
    }
}

// The power 0 is 1.
fn back_zero(z: Interval, x: Interval) -> Option<Interval>
    ensures { result ≡ (if holds z (Fin (pos unit)) then Some x else None) }
{
    if z.contains(Num::ONE) { Some(x) } else { None }
}

// The numbers of `x` whose odd power lies in `z`.
fn back_odd(z: Interval, x: Interval, n: u8) -> Option<Interval>
    requires positive { 1 ≤ n }
    requires fits { n ≤ 32 }
    ensures { result ≡ meet_of x (between (odd_low z.lo n) (odd_high z.hi n)) }
{
    meet_between(x, odd_root_low(z.lo(), n), odd_root_high(z.hi(), n))
}

// The hull of the numbers of `x` whose even power lies in `z`, with both signs.
fn back_even(z: Interval, x: Interval, n: u8) -> Option<Interval>
    requires positive { 1 ≤ n }
    requires fits { n ≤ 32 }
    ensures { result ≡ chain (meet_of z (between nought PosInf)) (λ w.
        both_signs x (even_roots w n)) }
{
    let powers = meet_between(z, Num::ZERO, Num::POS_INF)?;
    let lo = powers.lo().root(n, End::Down);
    let hi = powers.hi().root(n, End::Up);
    meet_both_signs(x, lo, hi)
}

// The number from which the odd roots of numbers from `e` on lie.
fn odd_root_low(e: Num, n: u8) -> Num
    requires open { e ≢ PosInf }
    requires positive { 1 ≤ n }
    requires fits { n ≤ 32 }
    ensures value { result ≡ odd_low e n }
    ensures below { result ≢ PosInf }
{
    if e == Num::NEG_INF {
        return e;
    }
    if Num::ZERO <= e {
        e.root(n, End::Down)
    } else {
        e.neg().root(n, End::Up).neg()
    }
}

// The number up to which the odd roots of numbers up to `e` lie.
fn odd_root_high(e: Num, n: u8) -> Num
    requires open { e ≢ NegInf }
    requires positive { 1 ≤ n }
    requires fits { n ≤ 32 }
    ensures value { result ≡ odd_high e n }
    ensures above { result ≢ NegInf }
{
    if Num::ZERO <= e {
        e.root(n, End::Up)
    } else {
        e.neg().root(n, End::Down).neg()
    }
}
