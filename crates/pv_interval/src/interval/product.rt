//! The product. The signs decide which two products of ends are computed; four are only where both
//! intervals cross 0.
ghost use Rattle.std.specs.Prelude.{◌≡◌, IsTrue};
ghost use Rattle.pv_num.specs.Order.{le};
ghost use Rattle.pv_interval.specs.Fractions.{times};
ghost use Rattle.pv_interval.specs.Inclusion.{HoldsPair};
ghost use Rattle.pv_interval.specs.Tables.{product_of, is_from_nought, is_to_nought, crosses_nought};

use crate::interval::{Interval, greater, lesser, pick};
use pv_num::{End, Num};

impl Interval {
    /// Holds the product of each number of this interval and each of `other`.
    #[inline]
    pub fn mul(self, other: Interval) -> Interval
        ensures value { result ≡ product_of self other }
        ensures inclusion { HoldsPair times self other result }
    {
        self.product(other)
    }

    #[inline]
    fn product(self, other: Interval) -> Interval
        ensures { result ≡ product_of self other }
    {
        if Num::ZERO <= self.lo() {
            return self.scale_up(other);
        }
        if Num::ZERO <= other.lo() {
            return other.scale_up(self);
        }
        if self.hi() <= Num::ZERO {
            return self.scale_down(other);
        }
        if other.hi() <= Num::ZERO {
            return other.scale_down(self);
        }
        self.mul_across(other)
    }

    // The product by numbers from 0 on, which keep the order of the other factor.
    #[inline]
    fn scale_up(self, other: Interval) -> Interval
        requires { IsTrue (is_from_nought self) }
        ensures { result ≡ product_of self other }
    {
        let (c, d) = (other.lo(), other.hi());
        let low = pick(Num::ZERO <= c, self.lo(), self.hi());
        let high = pick(Num::ZERO <= d, self.hi(), self.lo());
        let lo = low.mul(c, End::Down);
        let hi = high.mul(d, End::Up);
        Interval::of_ends(lo, hi)
    }

    // The product by numbers up to 0, which turn the order of the other factor.
    #[inline]
    fn scale_down(self, other: Interval) -> Interval
        requires { IsTrue (is_to_nought self) }
        ensures { result ≡ product_of self other }
    {
        let (c, d) = (other.lo(), other.hi());
        let low = pick(Num::ZERO <= d, self.lo(), self.hi());
        let high = pick(Num::ZERO <= c, self.hi(), self.lo());
        let lo = low.mul(d, End::Down);
        let hi = high.mul(c, End::Up);
        Interval::of_ends(lo, hi)
    }

    // The product of two intervals that cross 0.
    fn mul_across(self, other: Interval) -> Interval
        requires left { IsTrue (crosses_nought self) }
        requires right { IsTrue (crosses_nought other) }
        ensures { result ≡ product_of self other }
    {
        let (a, b) = (self.lo(), self.hi());
        let (c, d) = (other.lo(), other.hi());
        let low_1 = a.mul(d, End::Down);
        let low_2 = b.mul(c, End::Down);
        let high_1 = a.mul(c, End::Up);
        let high_2 = b.mul(d, End::Up);
        let lo = lesser(low_1, low_2);
        let hi = greater(high_1, high_2);
        Interval::of_ends(lo, hi)
    }
}
