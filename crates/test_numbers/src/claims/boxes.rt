//! What boxes promise.
ghost use Rattle.std.specs.Prelude.{◌≡◌, ◌↔◌, ◌<◌, ◌≤◌, [], All, IsTrue, IsFalse, IfOk, length, slice_index_or, slice_set};
ghost use Rattle.pv_box.specs.Boxes.{IsInsidePlace, IsApart, upper_half, hull_boxes};
ghost use Rattle.pv_box.specs.Choice.{choose_of, is_small_of};
ghost use Rattle.pv_box.specs.QHull.{q_hull_of};

use pv_box::{Bisector, IBox};
use pv_interval::Interval;
use pv_num::{Memory, Num};
use std::alloc::Global;

/// Puts an interval into a place.
pub fn put(bx: &mut IBox, i: u8, v: Interval)
    requires { i < length bx.old }
    ensures { bx.new ≡ slice_set bx.old i v }
{
    bx.set(i, v);
}

/// Becomes another box.
pub fn copy(bx: &mut IBox, other: &IBox)
    requires { length bx.old ≡ length other.now }
    ensures { bx.new ≡ other.now }
{
    bx.copy_from(other);
}

/// Whether two boxes are equal.
pub fn are_equal(a: &IBox, b: &IBox) -> bool
    ensures { IsTrue result ↔ (a.now ≡ b.now) }
{
    a.is_same(b)
}

/// The half above a cut.
pub fn half_above(bx: &IBox, alloc: Global, var: u8, at: Num) -> Result<IBox, Memory>
    requires var { var < length bx.now }
    requires at { IsInsidePlace at var bx.now }
    ensures { IfOk result (λ half. half ≡ upper_half bx.now var at) }
{
    let (_low, high) = bx.cut(alloc, var, at)?;
    Ok(high)
}

/// Becomes the hull with another box.
pub fn grow(bx: &mut IBox, other: &IBox)
    requires { length bx.old ≡ length other.now }
    ensures { bx.new ≡ hull_boxes bx.old other.now }
{
    bx.hull(other);
}

/// Whether two boxes have a common point, to which the first then shrinks.
pub fn shrink(bx: &mut IBox, other: &IBox) -> bool
    requires { length bx.old ≡ length other.now }
    ensures { IsFalse result → IsApart bx.old other.now }
{
    bx.meet(other)
}

/// The cut that a rule chooses.
pub fn cut_by(bx: &IBox, by: Bisector, path_len: u32) -> Option<(u8, Num)>
    ensures { result ≡ choose_of by path_len bx.now }
{
    bx.choose(by, path_len)
}

/// Whether no place is wider than a number.
pub fn is_small(bx: &IBox, eps: Num) -> bool
    ensures { result ≡ is_small_of eps bx.now }
{
    bx.is_small(eps)
}

/// The q-hull of some boxes.
pub fn hull_of_some(alloc: Global, q: u32, boxes: &[IBox]) -> Result<Option<IBox>, Memory>
    requires some { 0 < length boxes.now }
    requires equal { All (λ b. length b ≡ length (slice_index_or boxes.now 0 [])) boxes.now }
    requires q { 1 ≤ q }
    ensures { IfOk result (λ found. found ≡ q_hull_of q boxes.now) }
{
    IBox::q_hull(alloc, q, boxes)
}
