//! Whole powers.
ghost use Rattle.std.specs.Prelude.{◌≡◌, ◌≤◌, ◌%◌};
ghost use Rattle.pv_interval.specs.Inclusion.{HoldsPower};
ghost use Rattle.pv_interval.specs.Tables.{power_of, odd_power as odd_power_of, even_power as even_power_of, signed_power as signed_power_of};

use crate::interval::{Interval, greater};
use pv_num::{End, Num};

impl Interval {
    /// Holds the power `n` of each number of this interval; the power 0 is 1. The exponent is at
    /// most 32.
    #[inline]
    pub fn pow(self, n: u8) -> Interval
        requires { n ≤ 32 }
        ensures value { result ≡ power_of self n }
        ensures inclusion { HoldsPower n self result }
    {
        self.power(n)
    }

    fn power(self, n: u8) -> Interval
        requires { n ≤ 32 }
        ensures { result ≡ power_of self n }
    {
        if n == 0 {
            return Interval::of_ends(Num::ONE, Num::ONE);
        }
        if n % 2 == 0 {
            self.even_power(n)
        } else {
            self.odd_power(n)
        }
    }

    // An odd power keeps the order, and a number below 0 has the power of its size, with the sign.
    fn odd_power(self, n: u8) -> Interval
        requires fits { n ≤ 32 }
        requires odd { n % 2 ≡ 1 }
        ensures { result ≡ odd_power_of self n }
    {
        let lo = signed_power(self.lo(), n, End::Down, End::Up);
        let hi = signed_power(self.hi(), n, End::Up, End::Down);
        Interval::of_ends(lo, hi)
    }

    // An even power is that of the size.
    fn even_power(self, n: u8) -> Interval
        requires fits { n ≤ 32 }
        requires even { n % 2 ≡ 0 }
        ensures { result ≡ even_power_of self n }
    {
        let (a, b) = (self.lo(), self.hi());
        if Num::ZERO <= a {
            return Interval::of_ends(a.pow(n, End::Down), b.pow(n, End::Up));
        }
        if b <= Num::ZERO {
            return Interval::of_ends(b.neg().pow(n, End::Down), a.neg().pow(n, End::Up));
        }
        let far = greater(a.neg(), b);
        Interval::of_ends(Num::ZERO, far.pow(n, End::Up))
    }
}

// The power rounded to `side` from 0 on; below 0 the size's power, rounded to the `other` side.
#[inline]
fn signed_power(a: Num, n: u8, side: End, other: End) -> Num
    requires { n ≤ 32 }
    ensures { result ≡ signed_power_of side other a n }
{
    if Num::ZERO <= a {
        a.pow(n, side)
    } else {
        a.neg().pow(n, other).neg()
    }
}
