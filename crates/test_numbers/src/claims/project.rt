//! What projections promise.
ghost use Rattle.std.specs.Prelude.{◌≡◌, ◌≤◌};
ghost use Rattle.pv_project.specs.Projections.{back_add_of, back_sub_of, back_mul_of, back_div_of, back_min_of, back_neg_of, back_abs_of, back_pow_of};

use pv_interval::Interval;
use pv_project::{back_abs, back_add, back_div, back_min, back_mul, back_neg, back_pow, back_sub};

/// What is left of the arguments of a sum.
pub fn of_sum(z: Interval, x: Interval, y: Interval) -> Option<(Interval, Interval)>
    ensures { result ≡ back_add_of z x y }
{
    back_add(z, x, y)
}

/// What is left of the arguments of a difference.
pub fn of_difference(z: Interval, x: Interval, y: Interval) -> Option<(Interval, Interval)>
    ensures { result ≡ back_sub_of z x y }
{
    back_sub(z, x, y)
}

/// What is left of the arguments of a product.
pub fn of_product(z: Interval, x: Interval, y: Interval) -> Option<(Interval, Interval)>
    ensures { result ≡ back_mul_of z x y }
{
    back_mul(z, x, y)
}

/// What is left of the arguments of a quotient.
pub fn of_quotient(z: Interval, x: Interval, y: Interval) -> Option<(Interval, Interval)>
    ensures { result ≡ back_div_of z x y }
{
    back_div(z, x, y)
}

/// What is left of the arguments of the lesser of two.
pub fn of_lesser(z: Interval, x: Interval, y: Interval) -> Option<(Interval, Interval)>
    ensures { result ≡ back_min_of z x y }
{
    back_min(z, x, y)
}

/// What is left of the argument of an opposite.
pub fn of_opposite(z: Interval, x: Interval) -> Option<Interval>
    ensures { result ≡ back_neg_of z x }
{
    back_neg(z, x)
}

/// What is left of the argument of an absolute value.
pub fn of_size(z: Interval, x: Interval) -> Option<Interval>
    ensures { result ≡ back_abs_of z x }
{
    back_abs(z, x)
}

/// What is left of the argument of a power.
pub fn of_power(z: Interval, x: Interval, n: u8) -> Option<Interval>
    requires { n ≤ 32 }
    ensures { result ≡ back_pow_of z x n }
{
    back_pow(z, x, n)
}
