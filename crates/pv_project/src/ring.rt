//! Sums, differences, products and quotients. The first argument is narrowed first, and the second
//! by what is left of it.
ghost use Rattle.std.specs.Prelude.{◌≡◌};
ghost use Rattle.pv_interval.specs.Fractions.{plus, minus, times};
ghost use Rattle.pv_project.specs.Kept.{KeepsPair, KeepsQuotient};
ghost use Rattle.pv_project.specs.Projections.{back_add_of, back_sub_of, back_mul_of, back_div_of, factor_of};

use pv_interval::Interval;
use pv_num::Num;

/// The pairs of `x` and `y` whose sum can lie in `z`; None where there are none.
#[inline]
pub fn back_add(z: Interval, x: Interval, y: Interval) -> Option<(Interval, Interval)>
    ensures value { result ≡ back_add_of z x y }
    ensures kept { KeepsPair plus z x y result }
{
    narrow_sum(z, x, y)
}

#[tactic(auto, unfolding(crate::specs::Projections::back_add_of))]
fn narrow_sum(z: Interval, x: Interval, y: Interval) -> Option<(Interval, Interval)>
    ensures { result ≡ back_add_of z x y }
{
    let left = x.meet(z.sub(y))?;
    let right = y.meet(z.sub(left))?;
    Some((left, right))
}

/// The pairs of `x` and `y` whose difference can lie in `z`; None where there are none.
#[inline]
pub fn back_sub(z: Interval, x: Interval, y: Interval) -> Option<(Interval, Interval)>
    ensures value { result ≡ back_sub_of z x y }
    ensures kept { KeepsPair minus z x y result }
{
    narrow_difference(z, x, y)
}

#[tactic(auto, unfolding(crate::specs::Projections::back_sub_of))]
fn narrow_difference(z: Interval, x: Interval, y: Interval) -> Option<(Interval, Interval)>
    ensures { result ≡ back_sub_of z x y }
{
    let left = x.meet(z.add(y))?;
    let right = y.meet(left.sub(z))?;
    Some((left, right))
}

/// The pairs of `x` and `y` whose product can lie in `z`; None where there are none.
#[inline]
pub fn back_mul(z: Interval, x: Interval, y: Interval) -> Option<(Interval, Interval)>
    ensures value { result ≡ back_mul_of z x y }
    ensures kept { KeepsPair times z x y result }
{
    narrow_product(z, x, y)
}

#[tactic(auto, unfolding(crate::specs::Projections::back_mul_of))]
fn narrow_product(z: Interval, x: Interval, y: Interval) -> Option<(Interval, Interval)>
    ensures { result ≡ back_mul_of z x y }
{
    let left = x.meet(factor(z, y)?)?;
    let right = y.meet(factor(z, left)?)?;
    Some((left, right))
}

/// The pairs of `x` and `y` whose quotient can lie in `z`; None where there are none, so where `y`
/// is [0,0].
#[inline]
pub fn back_div(z: Interval, x: Interval, y: Interval) -> Option<(Interval, Interval)>
    ensures value { result ≡ back_div_of z x y }
    ensures kept { KeepsQuotient z x y result }
{
    narrow_quotient(z, x, y)
}

#[tactic(auto, unfolding(crate::specs::Projections::back_div_of))]
fn narrow_quotient(z: Interval, x: Interval, y: Interval) -> Option<(Interval, Interval)>
    ensures { result ≡ back_div_of z x y }
{
    if Num::ZERO <= y.lo() && y.hi() <= Num::ZERO {
        return None;
    }
    let left = x.meet(z.mul(y))?;
    let right = y.meet(factor(left, z)?)?;
    Some((left, right))
}

// The numbers that times one of `y` can give one of `z`: all where both hold 0.
fn factor(z: Interval, y: Interval) -> Option<Interval>
    ensures { result ≡ factor_of z y }
{
    if z.contains(Num::ZERO) && y.contains(Num::ZERO) {
        return Some(Interval::ALL);
    }
    z.quotient(y)
}
