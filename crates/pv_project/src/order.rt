//! Least, greatest, opposite and absolute values.
ghost use Rattle.std.specs.Prelude.{◌≡◌, ◌≢◌};
ghost use Rattle.pv_num.specs.Extended.{NegInf, PosInf};
ghost use Rattle.pv_num.specs.Order.{lesser as lesser_of, greater as greater_of};
ghost use Rattle.pv_interval.specs.Bounds.{between};
ghost use Rattle.pv_interval.specs.Tables.{meet_of};
ghost use Rattle.pv_interval.specs.Fractions.{least, greatest, opposite, size};
ghost use Rattle.pv_project.specs.Kept.{KeepsPair, KeepsOne};
ghost use Rattle.pv_project.specs.Projections.{back_min_of, back_max_of, back_neg_of, back_abs_of, least_side, greatest_side, both_signs, hull_of_parts};

use pv_interval::Interval;
use pv_num::Num;

/// The pairs of `x` and `y` whose least can lie in `z`; None where there are none.
#[inline]
pub fn back_min(z: Interval, x: Interval, y: Interval) -> Option<(Interval, Interval)>
    ensures value { result ≡ back_min_of z x y }
    ensures kept { KeepsPair least z x y result }
{
    narrow_least(z, x, y)
}

#[tactic(auto, unfolding(crate::specs::Projections::back_min_of))]
fn narrow_least(z: Interval, x: Interval, y: Interval) -> Option<(Interval, Interval)>
    ensures { result ≡ back_min_of z x y }
{
    let left = meet_least(z, x, y)?;
    let right = meet_least(z, y, left)?;
    Some((left, right))
}

/// The pairs of `x` and `y` whose greatest can lie in `z`; None where there are none.
#[inline]
pub fn back_max(z: Interval, x: Interval, y: Interval) -> Option<(Interval, Interval)>
    ensures value { result ≡ back_max_of z x y }
    ensures kept { KeepsPair greatest z x y result }
{
    narrow_greatest(z, x, y)
}

#[tactic(auto, unfolding(crate::specs::Projections::back_max_of))]
fn narrow_greatest(z: Interval, x: Interval, y: Interval) -> Option<(Interval, Interval)>
    ensures { result ≡ back_max_of z x y }
{
    let left = meet_greatest(z, x, y)?;
    let right = meet_greatest(z, y, left)?;
    Some((left, right))
}

/// The numbers of `x` whose opposite lies in `z`; None where there are none.
#[inline]
pub fn back_neg(z: Interval, x: Interval) -> Option<Interval>
    ensures value { result ≡ back_neg_of z x }
    ensures kept { KeepsOne opposite z x result }
{
    narrow_opposite(z, x)
}

#[tactic(auto, unfolding(crate::specs::Projections::back_neg_of))]
fn narrow_opposite(z: Interval, x: Interval) -> Option<Interval>
    ensures { result ≡ back_neg_of z x }
{
    x.meet(z.neg())
}

/// The hull of the numbers of `x` whose absolute value lies in `z`; None where there are none.
#[inline]
pub fn back_abs(z: Interval, x: Interval) -> Option<Interval>
    ensures value { result ≡ back_abs_of z x }
    ensures kept { KeepsOne size z x result }
{
    narrow_size(z, x)
}

#[tactic(auto, unfolding(crate::specs::Projections::back_abs_of))]
fn narrow_size(z: Interval, x: Interval) -> Option<Interval>
    ensures { result ≡ back_abs_of z x }
{
    let sizes = meet_between(z, Num::ZERO, Num::POS_INF)?;
    meet_both_signs(x, sizes.lo(), sizes.hi())
}

// The numbers of `x` that can be one of two whose least lies in `z`.
fn meet_least(z: Interval, x: Interval, other: Interval) -> Option<Interval>
    ensures { result ≡ meet_of x (least_side z other) }
{
    if z.hi() < other.lo() {
        return x.meet(z);
    }
    meet_between(x, z.lo(), Num::POS_INF)
}

// The numbers of `x` that can be one of two whose greatest lies in `z`.
fn meet_greatest(z: Interval, x: Interval, other: Interval) -> Option<Interval>
    ensures { result ≡ meet_of x (greatest_side z other) }
{
    if other.hi() < z.lo() {
        return x.meet(z);
    }
    meet_between(x, Num::NEG_INF, z.hi())
}

// The hull of the numbers of `x` from `lo` to `hi` and of those whose opposite is.
pub(crate) fn meet_both_signs(x: Interval, lo: Num, hi: Num) -> Option<Interval>
    requires lo_open { lo ≢ PosInf }
    requires hi_open { hi ≢ NegInf }
    ensures { result ≡ both_signs x (between lo hi) }
{
    hull_of_both(meet_between(x, lo, hi), meet_between(x, hi.neg(), lo.neg()))
}

fn hull_of_both(a: Option<Interval>, b: Option<Interval>) -> Option<Interval>
    ensures { result ≡ hull_of_parts a b }
{
    match a {
        None => b,
        Some(left) => match b {
            None => a,
            Some(right) => Some(left.hull(right)),
        },
    }
}

// The numbers of `x` from `lo` to `hi`.
pub(crate) fn meet_between(x: Interval, lo: Num, hi: Num) -> Option<Interval>
    requires lo_open { lo ≢ PosInf }
    requires hi_open { hi ≢ NegInf }
    ensures { result ≡ meet_of x (between lo hi) }
{
    Interval::new(greater(x.lo(), lo), lesser(x.hi(), hi))
}

#[inline]
pub(crate) fn lesser(a: Num, b: Num) -> Num
    ensures { result ≡ lesser_of a b }
{
    if a <= b { a } else { b }
}

#[inline]
pub(crate) fn greater(a: Num, b: Num) -> Num
    ensures { result ≡ greater_of a b }
{
    if a <= b { b } else { a }
}
