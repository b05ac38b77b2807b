//! What the paint of a picture tells, as contracts. Each holds by its contract alone, and the calls
//! do nothing.
ghost use Rattle.pv_svg.specs.Shows.{InnerIsInside, RemovedIsOutside, BareIsOutside, UnsaidHasPixel, UnsaidIsCovered};
ghost use Rattle.pv_svg.specs.Paints.{PaintIsLast, LastIsPaint, BareIsUnpainted, PicturesAreSound};

use pv_tree::Settler;

/// The paint at a place is the class of the last rectangle that contains it strictly. There is none
/// exactly where no rectangle does.
pub fn paint_in_words()
    ensures last { PaintIsLast }
    ensures only { LastIsPaint }
    ensures none { BareIsUnpainted }
{}

/// A picture of a sound paving is sound. Let a point of the plane lie on no rectangle's edge. Where
/// the paint there is inner, the point is in the settler's set, and where it is removed, the point
/// isn't.
pub fn pictures_are_sound<S: Settler>(settler: &S)
    ensures { PicturesAreSound (S.inside settler.now) }
{}

/// What the pixels of the printed picture of a sound paving say of the points of the plane in them.
///
/// All points in a pixel that shows inner are in the settler's set. A point within a pixel that
/// shows removed, or that shows nothing, isn't, unless an inner rectangle in which the point lies
/// has only a part of the pixel.
pub fn pixels_are_sound<S: Settler>(settler: &S)
    ensures inner { InnerIsInside (S.inside settler.now) }
    ensures removed { RemovedIsOutside (S.inside settler.now) }
    ensures bare { BareIsOutside (S.inside settler.now) }
{}

/// A rectangle of a small or an open leaf has a pixel of the picture, and each pixel within which
/// one of its points lies. A later element may cover it.
pub fn small_and_open_are_drawn()
    ensures some { UnsaidHasPixel }
    ensures all { UnsaidIsCovered }
{}
