//! The pixels of a rectangle along one axis.
ghost use Rattle.std.specs.Prelude.{◌≡◌, ◌≤◌, false};
ghost use Rattle.pv_svg.specs.Pixels.{IsFinite, is_flat, filled as filled_of, touched as touched_of, side_of, is_empty as has_none};
ghost use Rattle.pv_svg.specs.Rectangles.{LiesWithin};

use crate::pixel::{PIXELS, lower_pixel, upper_pixel};
use crate::rectangle::Class;
use pv_interval::Interval;

/// Pixels that follow one another along an axis: from `first` to the one before `past`. There is
/// none where `past` isn't above `first`.
#[derive(Clone, Copy)]
pub(crate) struct Side {
    pub(crate) first: u64,
    pub(crate) past: u64,
}

impl Side {
    /// The pixels of an axis that a rectangle of a class has, where `part` is its place on the
    /// axis. All that it touches, and at least one, where the class says nothing of its points, and
    /// those that lie within it where the class says something of each.
    #[tactic(auto, unfolding(crate::specs::Pixels::side_of))]
    pub(crate) fn of(class: Class, axis: &Interval, part: Interval) -> Side
        requires finite { IsFinite axis.now }
        requires on { LiesWithin axis.now part }
        ensures side { result ≡ side_of class axis.now part }
        ensures few { result.past ≤ PIXELS }
    {
        if has_no_length(axis) {
            return Side { first: 0, past: 1 };
        }
        match class {
            Class::Removed | Class::Inner => filled(axis, part),
            Class::Small | Class::OpenLeaf => touched(axis, part),
        }
    }

    pub(crate) fn is_empty(self) -> bool
        ensures { result ≡ has_none self }
    {
        self.past <= self.first
    }
}

fn has_no_length(axis: &Interval) -> bool
    ensures { result ≡ is_flat axis.now }
{
    axis.lo() == axis.hi()
}

// All the pixels that a part of an axis touches, and at least one.
fn touched(axis: &Interval, part: Interval) -> Side
    requires finite { IsFinite axis.now }
    requires long { is_flat axis.now ≡ false }
    requires on { LiesWithin axis.now part }
    ensures side { result ≡ touched_of axis.now part }
    ensures few { result.past ≤ PIXELS }
{
    let first = lower_pixel(axis, part.lo()).min(PIXELS - 1);
    let past = upper_pixel(axis, part.hi()).max(first + 1);
    Side { first, past }
}

// The pixels that lie within a part of an axis.
fn filled(axis: &Interval, part: Interval) -> Side
    requires finite { IsFinite axis.now }
    requires long { is_flat axis.now ≡ false }
    requires on { LiesWithin axis.now part }
    ensures side { result ≡ filled_of axis.now part }
    ensures few { result.past ≤ PIXELS }
{
    let first = upper_pixel(axis, part.lo());
    let past = lower_pixel(axis, part.hi());
    Side { first, past }
}
