//! What a node of a paving shows of itself on a plane.
ghost use Rattle.std.specs.Prelude.{◌≡◌, ◌++◌, ◌∷◌, [], OnOk, Some, length};
ghost use Rattle.pv_tree.specs.Trees.{shape_of};
ghost use Rattle.pv_tree.specs.Pieces.{IsPiece};
ghost use Rattle.pv_svg.specs.Planes.{IsPlane};
ghost use Rattle.pv_svg.specs.Rectangles.{cast_off, kept, seen};

use crate::plane::Plane;
use crate::rectangle::{Class, Rectangle};
use pv_box::IBox;
use pv_num::Memory;
use pv_tree::{Shape, Walk};

/// Appends the rectangles of the node that a walk has just visited, without those of its children.
/// The two boxes are written over.
pub(crate) fn push_node(
    walk: &Walk<'_>,
    shape: Shape,
    plane: &Plane<'_>,
    bx: &mut IBox,
    to: &mut IBox,
    out: &mut Vec<Rectangle>,
) -> Result<(), Memory>
    requires shape { shape ≡ shape_of (Some walk.now.here.tree) }
    requires piece { IsPiece walk.now.root walk.now.tree walk.now.here }
    requires plane { IsPlane plane.now (length walk.now.root) }
    requires bx { length bx.old ≡ length walk.now.root }
    requires to { length to.old ≡ length walk.now.root }
    ensures bx { length bx.new ≡ length bx.old }
    ensures to { length to.new ≡ length to.old }
    ensures seen { OnOk result
        (out.new.items ≡ out.old.items ++ seen plane.now walk.now.here.box walk.now.here.tree) }
{
    walk.write_box(bx);
    if !plane.meets(bx) {
        return Ok(());
    }
    match shape {
        Shape::Absent => unreachable!(),
        Shape::OpenLeaf => push(out, plane.rectangle(bx, Class::OpenLeaf)),
        Shape::Removed => push(out, plane.rectangle(bx, Class::Removed)),
        Shape::Inner => {
            walk.write_to(to);
            push_cast_off(plane, bx, to, out)?;
            push_kept(plane, to, Class::Inner, out)
        }
        Shape::Small => {
            walk.write_to(to);
            push_cast_off(plane, bx, to, out)?;
            push_kept(plane, to, Class::Small, out)
        }
        Shape::Cut { .. } => {
            walk.write_to(to);
            push_cast_off(plane, bx, to, out)
        }
    }
}

// Appends the rectangle of a box whose kept part leaves some of it uncovered.
fn push_cast_off(
    plane: &Plane<'_>,
    bx: &IBox,
    to: &IBox,
    out: &mut Vec<Rectangle>,
) -> Result<(), Memory>
    requires plane { IsPlane plane.now (length bx.now) }
    requires dims { length to.now ≡ length bx.now }
    ensures { OnOk result (out.new.items ≡ out.old.items ++ cast_off plane.now bx.now to.now) }
{
    if plane.fills(to, bx) {
        return Ok(());
    }
    push(out, plane.rectangle(bx, Class::Removed))
}

// Appends the rectangle of what a leaf kept of its box, where it is seen.
fn push_kept(
    plane: &Plane<'_>,
    to: &IBox,
    class: Class,
    out: &mut Vec<Rectangle>,
) -> Result<(), Memory>
    requires { IsPlane plane.now (length to.now) }
    ensures { OnOk result (out.new.items ≡ out.old.items ++ kept plane.now to.now class) }
{
    if !plane.meets(to) {
        return Ok(());
    }
    push(out, plane.rectangle(to, class))
}

fn push(out: &mut Vec<Rectangle>, rectangle: Rectangle) -> Result<(), Memory>
    ensures { OnOk result (out.new.items ≡ out.old.items ++ rectangle ∷ []) }
{
    out.push(rectangle)?;
    Ok(())
}
