//! Planes that cut a box in two of its places.
ghost use Rattle.std.specs.Prelude.{◌≡◌, ◌≢◌, ◌<◌, length};
ghost use Rattle.pv_svg.specs.Planes.{IsPlane, meets as is_met, meets_place as place_is_met, number_of};
ghost use Rattle.pv_svg.specs.Rectangles.{rectangle_of, fills as is_filled, same_bounds};

use crate::rectangle::{Class, Rectangle};
use pv_box::IBox;
use pv_interval::Interval;
use pv_num::Num;
use std::marker::Model;

/// A plane: two places are its axes, and each other place has a number, in the places' order.
#[derive(Drop)]
pub(crate) struct Plane<'a> {
    x: u8,
    y: u8,
    at: &'a [Num],
}

impl<'a> Model for Plane<'a> {
    ghost use Rattle.pv_svg.specs.Planes.{Plane};

    ghost Value = { Plane };

    ghost view = { λ a. record { x = a.x; y = a.y; at = a.at.now } };
}

impl<'a> Plane<'a> {
    /// The plane of two places, with these numbers for the others.
    pub(crate) fn of(x: u8, y: u8, at: &'a [Num]) -> Plane<'a>
        ensures { result ≡ record { x = x; y = y; at = at.now } }
    {
        Plane { x, y, at }
    }

    /// Whether the plane goes through a box: whether each number lies in its place, ends included.
    pub(crate) fn meets(&self, bx: &IBox) -> bool
        requires { IsPlane self.now (length bx.now) }
        ensures { result ≡ is_met self.now bx.now }
    {
        for i in 0..bx.dims() {
            if !self.meets_place(i, bx.get(i), bx.dims()) {
                return false;
            }
        }
        true
    }

    // Whether a place is an axis, or its number lies in an interval.
    fn meets_place(&self, i: u8, part: Interval, places: u8) -> bool
        requires plane { IsPlane self.now places }
        requires there { i < places }
        ensures { result ≡ place_is_met self.now i part }
    {
        i == self.x || i == self.y || part.contains(self.number(i, places))
    }

    // The number of a place that is no axis.
    fn number(&self, i: u8, places: u8) -> Num
        requires plane { IsPlane self.now places }
        requires there { i < places }
        requires not_x { i ≢ self.now.x }
        requires not_y { i ≢ self.now.y }
        ensures { result ≡ number_of self.now i }
    {
        let axes_before = u8::from(self.x < i) + u8::from(self.y < i);
        self.at[(i - axes_before) as usize]
    }

    /// The part of the plane that a box takes up.
    pub(crate) fn rectangle(&self, bx: &IBox, class: Class) -> Rectangle
        requires { IsPlane self.now (length bx.now) }
        ensures { result ≡ rectangle_of self.now bx.now class }
    {
        Rectangle {
            x: bx.get(self.x),
            y: bx.get(self.y),
            class,
        }
    }

    /// Whether a part of a box takes up all that the box does of the plane.
    pub(crate) fn fills(&self, part: &IBox, bx: &IBox) -> bool
        requires plane { IsPlane self.now (length bx.now) }
        requires dims { length part.now ≡ length bx.now }
        ensures { result ≡ is_filled self.now part.now bx.now }
    {
        self.meets(part)
            && is_same(part.get(self.x), bx.get(self.x))
            && is_same(part.get(self.y), bx.get(self.y))
    }
}

fn is_same(a: Interval, b: Interval) -> bool
    ensures { result ≡ same_bounds a b }
{
    a.lo() == b.lo() && a.hi() == b.hi()
}
