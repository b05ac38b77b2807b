//! What a picture shows, and what is written of it.
ghost use Rattle.std.specs.Prelude.{◌≡◌, ◌≢◌, ◌+◌, ◌<◌, IfOk, OnOk, IsErrOf, length};
ghost use Rattle.pv_io.specs.Outside.{Rose, appended};
ghost use Rattle.pv_svg.specs.Planes.{place};
ghost use Rattle.pv_svg.specs.Pixels.{IsFinite};
ghost use Rattle.pv_svg.specs.Rectangles.{picture_of};
ghost use Rattle.pv_svg.specs.Texts.{picture_text};

use pv_io::{FileWriteRefused, Sink};
use pv_num::{Memory, Num};
use pv_svg::{Picture, slice};
use pv_tree::Paving;
use std::alloc::Global;

/// The rectangles are those of the paving on the plane.
pub fn show(alloc: Global, p: &Paving, x: u8, y: u8, at: &[Num]) -> Result<Picture, Memory>
    requires x { x < length p.now.root }
    requires y { y < length p.now.root }
    requires two { x ≢ y }
    requires others { length at.now + 2 ≡ length p.now.root }
    requires x_finite { IsFinite (place p.now.root x) }
    requires y_finite { IsFinite (place p.now.root y) }
    ensures { IfOk result (λ picture.
        picture ≡ picture_of (record { x = x; y = y; at = at.now }) p.now.root p.now.tree) }
{
    slice(alloc, p, x, y, at)
}

/// The text is the picture's. Only a sink that failed is a failure.
pub fn draw<K: Sink>(picture: &Picture, alloc: Global, sink: &mut K) -> Result<(), FileWriteRefused>
    ensures whole { OnOk result
        (K.written sink.new ≡ appended (K.written sink.old) (picture_text picture.now)) }
    ensures cause { IsErrOf result FileWriteRefused.WriteFailed
        → Rose (K.faults sink.old) (K.faults sink.new) }
{
    picture.write(alloc, sink)
}
