//! Sums and differences, if an end of the target is the one of the operation's own interval: the
//! ends of the arguments that gave it stay, and are not worked out.
ghost use Rattle.std.specs.Prelude.{◌≡◌};
ghost use Rattle.pv_interval.specs.Bounds.{IsInterval};
ghost use Rattle.pv_interval.specs.Tables.{sum_of, difference_of};
ghost use Rattle.pv_project.specs.Projections.{back_add_of, back_sub_of};
ghost use Rattle.pv_project.specs.Rests.{Rests, up_to_of, from_of, sum_above_of, sum_below_of, difference_above_of, difference_below_of};

use crate::order::{greater, lesser};
use crate::ring::{back_add, back_sub};
use pv_interval::Interval;
use pv_num::{End, Num};

/// The end of a target that is known to be the one of the operation's own interval.
#[derive(Clone, Copy, Debug, PartialEq, Eq)]
pub enum Rest {
    /// None is known.
    Neither,
    /// The lower one.
    Lower,
    /// The upper one.
    Upper,
}

/// What `back_add` answers, by a shorter way if an end of `z` is the one of `x` plus `y`.
#[inline]
pub fn back_add_resting(
    z: Interval,
    x: Interval,
    y: Interval,
    rest: Rest,
) -> Option<(Interval, Interval)>
    requires { Rests rest z (sum_of x y) }
    ensures { result ≡ back_add_of z x y }
{
    match rest {
        Rest::Neither => back_add(z, x, y),
        Rest::Lower => sum_below(z, x, y),
        Rest::Upper => sum_above(z, x, y),
    }
}

// The pairs whose sum is at most the upper end.
#[inline]
#[tactic(auto, unfolding(crate::specs::Rests::sum_below_of))]
fn sum_below(z: Interval, x: Interval, y: Interval) -> Option<(Interval, Interval)>
    ensures value { result ≡ sum_below_of z x y }
    ensures intervals { IsInterval z × IsInterval x × IsInterval y }
{
    let left = up_to(x, z.hi().sub(y.lo(), End::Up))?;
    let right = up_to(y, z.hi().sub(left.lo(), End::Up))?;
    Some((left, right))
}

// The pairs whose sum is at least the lower end.
#[inline]
#[tactic(auto, unfolding(crate::specs::Rests::sum_above_of))]
fn sum_above(z: Interval, x: Interval, y: Interval) -> Option<(Interval, Interval)>
    ensures value { result ≡ sum_above_of z x y }
    ensures intervals { IsInterval z × IsInterval x × IsInterval y }
{
    let left = from(x, z.lo().sub(y.hi(), End::Down))?;
    let right = from(y, z.lo().sub(left.hi(), End::Down))?;
    Some((left, right))
}

/// What `back_sub` answers, by a shorter way if an end of `z` is the one of `x` minus `y`.
#[inline]
pub fn back_sub_resting(
    z: Interval,
    x: Interval,
    y: Interval,
    rest: Rest,
) -> Option<(Interval, Interval)>
    requires { Rests rest z (difference_of x y) }
    ensures { result ≡ back_sub_of z x y }
{
    match rest {
        Rest::Neither => back_sub(z, x, y),
        Rest::Lower => difference_below(z, x, y),
        Rest::Upper => difference_above(z, x, y),
    }
}

// The pairs whose difference is at most the upper end.
#[inline]
#[tactic(auto, unfolding(crate::specs::Rests::difference_below_of))]
fn difference_below(z: Interval, x: Interval, y: Interval) -> Option<(Interval, Interval)>
    ensures value { result ≡ difference_below_of z x y }
    ensures intervals { IsInterval z × IsInterval x × IsInterval y }
{
    let left = up_to(x, z.hi().add(y.hi(), End::Up))?;
    let right = from(y, left.lo().sub(z.hi(), End::Down))?;
    Some((left, right))
}

// The pairs whose difference is at least the lower end.
#[inline]
#[tactic(auto, unfolding(crate::specs::Rests::difference_above_of))]
fn difference_above(z: Interval, x: Interval, y: Interval) -> Option<(Interval, Interval)>
    ensures value { result ≡ difference_above_of z x y }
    ensures intervals { IsInterval z × IsInterval x × IsInterval y }
{
    let left = from(x, z.lo().add(y.lo(), End::Down))?;
    let right = up_to(y, left.hi().sub(z.lo(), End::Up))?;
    Some((left, right))
}

// The numbers of `x` up to `hi`.
#[inline]
fn up_to(x: Interval, hi: Num) -> Option<Interval>
    ensures value { result ≡ up_to_of x hi }
    ensures interval { IsInterval x }
{
    Interval::new(x.lo(), lesser(x.hi(), hi))
}

// The numbers of `x` from `lo` on.
#[inline]
fn from(x: Interval, lo: Num) -> Option<Interval>
    ensures value { result ≡ from_of x lo }
    ensures interval { IsInterval x }
{
    Interval::new(greater(x.lo(), lo), x.hi())
}
