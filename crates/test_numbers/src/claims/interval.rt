//! What intervals promise.
ghost use Rattle.std.specs.Prelude.{◌≡◌, ◌≤◌};
ghost use Rattle.pv_interval.specs.Bounds.{interval_from};
ghost use Rattle.pv_interval.specs.Tables.{sum_of, product_of, quotient_of, power_of, absolute, least_of, meet_of, width_of, holds};

use pv_interval::Interval;
use pv_num::Num;

/// The interval with these ends.
pub fn with_ends(lo: Num, hi: Num) -> Option<Interval>
    ensures { result ≡ interval_from lo hi }
{
    Interval::new(lo, hi)
}

/// The sums.
pub fn sums(a: Interval, b: Interval) -> Interval
    ensures { result ≡ sum_of a b }
{
    a.add(b)
}

/// The products.
pub fn products(a: Interval, b: Interval) -> Interval
    ensures { result ≡ product_of a b }
{
    a.mul(b)
}

/// The quotients.
pub fn quotients(a: Interval, by: Interval) -> Option<Interval>
    ensures { result ≡ quotient_of a by }
{
    a.quotient(by)
}

/// The powers.
pub fn powers(a: Interval, n: u8) -> Interval
    requires { n ≤ 32 }
    ensures { result ≡ power_of a n }
{
    a.pow(n)
}

/// The numbers without their signs.
pub fn sizes(a: Interval) -> Interval
    ensures { result ≡ absolute a }
{
    a.abs()
}

/// The lesser of each two numbers.
pub fn lesser(a: Interval, b: Interval) -> Interval
    ensures { result ≡ least_of a b }
{
    a.min(b)
}

/// The numbers that lie in both.
pub fn common(a: Interval, b: Interval) -> Option<Interval>
    ensures { result ≡ meet_of a b }
{
    a.meet(b)
}

/// The width, rounded up.
pub fn width(a: Interval) -> Num
    ensures { result ≡ width_of a }
{
    a.width()
}

/// Whether a number lies in an interval.
pub fn has(a: Interval, n: Num) -> bool
    ensures { result ≡ holds a n }
{
    a.contains(n)
}
