//! The interval type, and the operations that need no cases on signs.
ghost use Rattle.std.specs.Prelude.{◌≡◌, if◌then◌else◌};
ghost use Rattle.pv_num.specs.Order.{lesser as lesser_of, greater as greater_of};
ghost use Rattle.pv_interval.specs.Bounds.{IsInterval, between, interval_from};
ghost use Rattle.pv_interval.specs.Fractions.{plus, minus, opposite, size, least, greatest};
ghost use Rattle.pv_interval.specs.Inclusion.{HoldsPair, HoldsOne, HoldsBoth, Covers};
ghost use Rattle.pv_interval.specs.Tables.{sum_of, difference_of, negated, absolute, least_of, greatest_of, hull_of, meet_of, width_of, holds};

use pv_num::{End, Num};
use std::marker::Model;

mod power;
mod product;
mod quotient;

/// A closed interval of numbers. Its lower end is at most its upper one, and an infinite end is no
/// bound.
#[derive(Clone, Copy, Debug, PartialEq, Eq)]
pub struct Interval {
    lo: Num,
    hi: Num,
}

impl Model for Interval {
    ghost use Rattle.pv_interval.specs.Bounds.{Bounds, IsInterval, between};

    ghost Value = { Bounds };

    ghost view = { λ a. between a.lo a.hi };

    ghost invariant = { λ a. IsInterval (between a.lo a.hi) };

    ghost inverse = { λ b. record { lo = b.lo; hi = b.hi } };
}

impl Interval {
    /// All numbers.
    pub const ALL: Interval = Interval {
        lo: Num::NEG_INF,
        hi: Num::POS_INF,
    };

    /// The interval from `lo` to `hi`; None where `lo` is above `hi`, `lo` is +oo or `hi` is -oo.
    #[inline]
    pub fn new(lo: Num, hi: Num) -> Option<Interval>
        ensures { result ≡ interval_from lo hi }
    {
        if lo > hi || lo == Num::POS_INF || hi == Num::NEG_INF {
            return None;
        }
        Some(Interval { lo, hi })
    }

    // The interval with these ends, where they are known to be those of one.
    #[inline]
    fn of_ends(lo: Num, hi: Num) -> Interval
        requires { IsInterval (between lo hi) }
        ensures { result ≡ between lo hi }
    {
        Interval { lo, hi }
    }

    /// The lower end.
    #[inline]
    pub fn lo(self) -> Num
        ensures value { result ≡ self.lo }
        ensures interval { IsInterval self }
    {
        self.lo
    }

    /// The upper end.
    #[inline]
    pub fn hi(self) -> Num
        ensures value { result ≡ self.hi }
        ensures interval { IsInterval self }
    {
        self.hi
    }

    /// Holds the sum of each number of this interval and each of `other`.
    #[inline]
    pub fn add(self, other: Interval) -> Interval
        ensures value { result ≡ sum_of self other }
        ensures inclusion { HoldsPair plus self other result }
    {
        let lo = self.lo().add(other.lo(), End::Down);
        let hi = self.hi().add(other.hi(), End::Up);
        Interval::of_ends(lo, hi)
    }

    /// Holds the difference of each number of this interval and each of `other`.
    #[inline]
    pub fn sub(self, other: Interval) -> Interval
        ensures value { result ≡ difference_of self other }
        ensures inclusion { HoldsPair minus self other result }
    {
        let lo = self.lo().sub(other.hi(), End::Down);
        let hi = self.hi().sub(other.lo(), End::Up);
        Interval::of_ends(lo, hi)
    }

    /// The numbers of this interval with the other sign.
    #[inline]
    pub fn neg(self) -> Interval
        ensures value { result ≡ negated self }
        ensures inclusion { HoldsOne opposite self result }
    {
        let lo = self.hi().neg();
        let hi = self.lo().neg();
        Interval::of_ends(lo, hi)
    }

    /// The numbers of this interval without their sign.
    #[inline]
    pub fn abs(self) -> Interval
        ensures value { result ≡ absolute self }
        ensures inclusion { HoldsOne size self result }
    {
        self.sizes()
    }

    #[inline]
    fn sizes(self) -> Interval
        ensures { result ≡ absolute self }
    {
        if Num::ZERO <= self.lo() {
            return self;
        }
        if self.hi() <= Num::ZERO {
            return self.neg();
        }
        let hi = greater(self.lo().neg(), self.hi());
        Interval::of_ends(Num::ZERO, hi)
    }

    /// Holds the lesser of each number of this interval and each of `other`.
    #[inline]
    pub fn min(self, other: Interval) -> Interval
        ensures value { result ≡ least_of self other }
        ensures inclusion { HoldsPair least self other result }
    {
        let lo = lesser(self.lo(), other.lo());
        let hi = lesser(self.hi(), other.hi());
        Interval::of_ends(lo, hi)
    }

    /// Holds the greater of each number of this interval and each of `other`.
    #[inline]
    pub fn max(self, other: Interval) -> Interval
        ensures value { result ≡ greatest_of self other }
        ensures inclusion { HoldsPair greatest self other result }
    {
        let lo = greater(self.lo(), other.lo());
        let hi = greater(self.hi(), other.hi());
        Interval::of_ends(lo, hi)
    }

    /// The numbers that lie in both; None where there is none.
    #[inline]
    pub fn meet(self, other: Interval) -> Option<Interval>
        ensures value { result ≡ meet_of self other }
        ensures inclusion { HoldsBoth self other result }
    {
        self.common(other)
    }

    #[inline]
    fn common(self, other: Interval) -> Option<Interval>
        ensures { result ≡ meet_of self other }
    {
        let lo = greater(self.lo(), other.lo());
        let hi = lesser(self.hi(), other.hi());
        if lo <= hi {
            return Some(Interval::of_ends(lo, hi));
        }
        None
    }

    /// The least interval that holds both.
    #[inline]
    pub fn hull(self, other: Interval) -> Interval
        ensures value { result ≡ hull_of self other }
        ensures holds_left { Covers self result }
        ensures holds_right { Covers other result }
    {
        let lo = lesser(self.lo(), other.lo());
        let hi = greater(self.hi(), other.hi());
        Interval::of_ends(lo, hi)
    }

    /// Whether `n` is at least the lower end and at most the upper one.
    #[inline]
    pub fn contains(self, n: Num) -> bool
        ensures { result ≡ holds self n }
    {
        self.lo() <= n && n <= self.hi()
    }

    /// The upper end minus the lower one, rounded up; +oo where an end is infinite.
    #[inline]
    pub fn width(self) -> Num
        ensures { result ≡ width_of self }
    {
        self.hi().sub(self.lo(), End::Up)
    }
}

#[inline]
fn lesser(a: Num, b: Num) -> Num
    ensures { result ≡ lesser_of a b }
{
    if a <= b { a } else { b }
}

#[inline]
fn greater(a: Num, b: Num) -> Num
    ensures { result ≡ greater_of a b }
{
    if a <= b { b } else { a }
}

#[inline]
fn pick(test: bool, yes: Num, no: Num) -> Num
    ensures { result ≡ (if test then yes else no) }
{
    if test { yes } else { no }
}
