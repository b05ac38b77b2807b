//! Where numbers lie on an axis of 1000 pixels.
ghost use Rattle.std.specs.Prelude.{◌≡◌, ◌≤◌};
ghost use Rattle.pv_svg.specs.Pixels.{IsOn, lower_pixel as lower_pixel_of, upper_pixel as upper_pixel_of, thousand};

use pv_interval::Interval;
use pv_num::{End, Num};

/// The number of pixels of each axis.
pub(crate) const PIXELS: u64 = 1000;

/// How many pixels, counted from the lower end of a finite axis with a length, end at or below a
/// number that lies on it.
///
/// It is the whole part of 1000 times the share of the axis that lies below the number, with each
/// step rounded so that it is never too high. At the axis's upper end it is 1000.
pub(crate) fn lower_pixel(axis: &Interval, v: Num) -> u64
    requires { IsOn axis.now v }
    ensures pixel { result ≡ lower_pixel_of axis.now v }
    ensures few { result ≤ PIXELS }
{
    if v == axis.hi() {
        return PIXELS;
    }
    let share = v.sub(axis.lo(), End::Down).div(axis.width(), End::Down);
    share.mul(one_thousand(), End::Down).floor(PIXELS)
}

/// How many pixels, counted from the lower end, begin below a number: all but those that are
/// counted from the upper end down. It is never too low, and at the axis's lower end it is 0.
pub(crate) fn upper_pixel(axis: &Interval, v: Num) -> u64
    requires { IsOn axis.now v }
    ensures pixel { result ≡ upper_pixel_of axis.now v }
    ensures few { result ≤ PIXELS }
{
    PIXELS - lower_pixel(&axis.neg(), v.neg())
}

fn one_thousand() -> Num
    ensures { result ≡ thousand }
{
    Num::from_ratio(1000, 1, End::Down)
}
