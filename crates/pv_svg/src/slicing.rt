//! The rectangles of a slice, found by one walk over the paving.
ghost use Rattle.std.specs.Prelude.{◌≡◌, ◌≢◌, ◌+◌, ◌<◌, ◌≤◌, IfOk, length};
ghost use Rattle.pv_svg.specs.Planes.{place};
ghost use Rattle.pv_svg.specs.Pixels.{IsFinite};
ghost use Rattle.pv_svg.specs.Rectangles.{picture_of};
ghost use Rattle.pv_box.specs.declared.boxes.TheConstants.{MOST_PLACES};

use crate::picture::Picture;
use crate::plane::Plane;
use crate::shown::push_node;
use pv_box::IBox;
use pv_interval::Interval;
use pv_num::{Memory, Num};
use pv_tree::{Path, Paving, Walk};
use std::alloc::Global;

/// The picture of a paving on the plane of its places `x` and `y`, where the other places have the
/// numbers `at`, in their order.
pub fn slice(alloc: Global, p: &Paving, x: u8, y: u8, at: &[Num]) -> Result<Picture, Memory>
    requires x { x < length p.now.root }
    requires y { y < length p.now.root }
    requires two { x ≢ y }
    requires others { length at.now + 2 ≡ length p.now.root }
    requires x_finite { IsFinite (place p.now.root x) }
    requires y_finite { IsFinite (place p.now.root y) }
    ensures { IfOk result (λ picture.
        picture ≡ picture_of (record { x = x; y = y; at = at.now }) p.now.root p.now.tree) }
{
    let plane = Plane::of(x, y, at);
    let mut bx = scratch_box(alloc, p.dims())?;
    let mut to = scratch_box(alloc, p.dims())?;
    let mut rectangles = Vec::new(alloc);
    let mut walk = Walk::of(alloc, p)?;
    while let Some(shape) = walk.next() {
        push_node(&walk, shape, &plane, &mut bx, &mut to, &mut rectangles)?;
    }
    p.box_at(Path::root(), &mut bx);
    Ok(Picture {
        x: bx.get(x),
        y: bx.get(y),
        rectangles,
    })
}

// A box of `places` places, to write over.
fn scratch_box(alloc: Global, places: u8) -> Result<IBox, Memory>
    requires some { 0 < places }
    requires few { places ≤ MOST_PLACES }
    ensures { IfOk result (λ b. length b ≡ places) }
{
    Ok(IBox::new(vec![in alloc; Interval::ALL; places as usize]?))
}
