//! The quotient. The sign of the divisor and those of the ends decide which two quotients of ends
//! are computed.
ghost use Rattle.std.specs.Prelude.{◌≡◌, IsTrue, false};
ghost use Rattle.pv_num.specs.Order.{le, lt};
ghost use Rattle.pv_num.specs.Arithmetic.{div_of};
ghost use Rattle.pv_interval.specs.Bounds.{IsInterval};
ghost use Rattle.pv_interval.specs.Inclusion.{HoldsQuotient};
ghost use Rattle.pv_interval.specs.Tables.{quotient_of, quotient_across, over_from_nought, over_to_nought, nought, of_ends, is_nought, has_nought};

use crate::interval::{Interval, pick};
use pv_num::{End, Num};

impl Interval {
    /// Holds the quotient of each number of this interval and each number of `by` that is not 0.
    /// None exactly where `by` is [0,0].
    #[inline]
    pub fn quotient(self, by: Interval) -> Option<Interval>
        ensures value { result ≡ quotient_of self by }
        ensures inclusion { HoldsQuotient self by result }
    {
        self.divided(by)
    }

    #[inline]
    fn divided(self, by: Interval) -> Option<Interval>
        ensures { result ≡ quotient_of self by }
    {
        if Num::ZERO < by.lo() {
            return Some(self.over_positive(by));
        }
        if by.hi() < Num::ZERO {
            return Some(self.over_negative(by));
        }
        if by.is_zero() {
            return None;
        }
        if self.is_zero() {
            return Some(self);
        }
        Some(self.over_across(by))
    }

    #[inline]
    fn is_zero(self) -> bool
        ensures value { result ≡ is_nought self }
        ensures interval { IsInterval self }
    {
        Num::ZERO <= self.lo() && self.hi() <= Num::ZERO
    }

    // The quotient by numbers above 0.
    #[inline]
    fn over_positive(self, by: Interval) -> Interval
        requires { IsTrue (lt nought by.lo) }
        ensures { result ≡ of_ends div_of self by }
    {
        let (c, d) = (by.lo(), by.hi());
        let low = pick(Num::ZERO <= self.lo(), d, c);
        let high = pick(Num::ZERO <= self.hi(), c, d);
        let lo = self.lo().div(low, End::Down);
        let hi = self.hi().div(high, End::Up);
        Interval::of_ends(lo, hi)
    }

    // The quotient by numbers below 0.
    #[inline]
    fn over_negative(self, by: Interval) -> Interval
        requires { IsTrue (lt by.hi nought) }
        ensures { result ≡ of_ends div_of self by }
    {
        let (c, d) = (by.lo(), by.hi());
        let low = pick(Num::ZERO <= self.hi(), d, c);
        let high = pick(Num::ZERO <= self.lo(), c, d);
        let lo = self.hi().div(low, End::Down);
        let hi = self.lo().div(high, End::Up);
        Interval::of_ends(lo, hi)
    }

    // The quotient by an interval that holds 0 and other numbers.
    fn over_across(self, by: Interval) -> Interval
        requires some { is_nought by ≡ false }
        requires zero { IsTrue (has_nought by) }
        ensures { result ≡ quotient_across self by }
    {
        if by.lo() < Num::ZERO && Num::ZERO < by.hi() {
            return Interval::ALL;
        }
        if Num::ZERO <= by.lo() {
            return self.over_from_zero(by.hi());
        }
        self.over_to_zero(by.lo())
    }

    // The quotient by [0,d], d above 0.
    fn over_from_zero(self, d: Num) -> Interval
        requires { IsTrue (lt nought d) }
        ensures { result ≡ over_from_nought self d }
    {
        if Num::ZERO <= self.lo() {
            return Interval::of_ends(self.lo().div(d, End::Down), Num::POS_INF);
        }
        if self.hi() <= Num::ZERO {
            return Interval::of_ends(Num::NEG_INF, self.hi().div(d, End::Up));
        }
        Interval::ALL
    }

    // The quotient by [c,0], c below 0.
    fn over_to_zero(self, c: Num) -> Interval
        requires { IsTrue (lt c nought) }
        ensures { result ≡ over_to_nought self c }
    {
        if Num::ZERO <= self.lo() {
            return Interval::of_ends(Num::NEG_INF, self.lo().div(c, End::Up));
        }
        if self.hi() <= Num::ZERO {
            return Interval::of_ends(self.hi().div(c, End::Down), Num::POS_INF);
        }
        Interval::ALL
    }
}
