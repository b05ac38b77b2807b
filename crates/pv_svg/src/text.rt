//! The lines of a picture's text.
ghost use Rattle.std.specs.Prelude.{◌≡◌, ◌≤◌, ◌++◌, OnOk, decimal};
ghost use Rattle.pv_svg.specs.Pixels.{IsFinite};
ghost use Rattle.pv_svg.specs.Rectangles.{IsOnAxes};
ghost use Rattle.pv_svg.specs.Texts.{fill_text, element_text, pixels_text, rectangle_text};

use crate::pixel::PIXELS;
use crate::rectangle::{Class, Rectangle};
use crate::side::Side;
use itoa::Buffer;
use pv_interval::Interval;
use pv_num::Memory;

/// The line before all rectangles.
pub(crate) const HEAD: &[u8] =
    b"<svg xmlns=\"http://www.w3.org/2000/svg\" width=\"1000\" height=\"1000\" viewBox=\"0 0 1000 1000\">\n";

/// The line after all rectangles.
pub(crate) const FOOT: &[u8] = b"</svg>\n";

/// No line is longer.
pub(crate) const LONGEST_LINE: usize = 100;

/// Appends the line of a rectangle of a picture with these axes; nothing where it has no pixel.
pub(crate) fn push_rectangle(
    x: &Interval,
    y: &Interval,
    rectangle: &Rectangle,
    out: &mut Vec<u8>,
) -> Result<(), Memory>
    requires x { IsFinite x.now }
    requires y { IsFinite y.now }
    requires on_axes { IsOnAxes x.now y.now rectangle.now }
    ensures { OnOk result (out.new.items ≡
        out.old.items ++ rectangle_text x.now y.now rectangle.now) }
{
    let across = Side::of(rectangle.class, x, rectangle.x);
    let up = Side::of(rectangle.class, y, rectangle.y);
    push_pixels(across, up, rectangle.class, out)
}

// Appends the element of a rectangle's pixels, where there are some.
fn push_pixels(across: Side, up: Side, class: Class, out: &mut Vec<u8>) -> Result<(), Memory>
    requires few { up.past ≤ PIXELS }
    ensures { OnOk result (out.new.items ≡ out.old.items ++ pixels_text across up class) }
{
    if across.is_empty() || up.is_empty() {
        return Ok(());
    }
    push_element(
        across.first,
        PIXELS - up.past,
        across.past - across.first,
        up.past - up.first,
        class,
        out,
    )
}

fn push_element(
    x: u64,
    y: u64,
    width: u64,
    height: u64,
    class: Class,
    out: &mut Vec<u8>,
) -> Result<(), Memory>
    ensures { OnOk result (out.new.items ≡ out.old.items ++ element_text x y width height class) }
{
    push(out, b"<rect x=\"")?;
    push_number(out, x)?;
    push(out, b"\" y=\"")?;
    push_number(out, y)?;
    push(out, b"\" width=\"")?;
    push_number(out, width)?;
    push(out, b"\" height=\"")?;
    push_number(out, height)?;
    push(out, b"\" fill=\"")?;
    push_fill(out, class)?;
    push(out, b"\"/>\n")
}

fn push_fill(out: &mut Vec<u8>, class: Class) -> Result<(), Memory>
    ensures { OnOk result (out.new.items ≡ out.old.items ++ fill_text class) }
{
    match class {
        Class::Removed => push(out, b"#cfd8dc"),
        Class::Inner => push(out, b"#43a047"),
        Class::Small => push(out, b"#fdd835"),
        Class::OpenLeaf => push(out, b"#ffffff"),
    }
}

fn push_number(out: &mut Vec<u8>, n: u64) -> Result<(), Memory>
    ensures { OnOk result (out.new.items ≡ out.old.items ++ decimal n) }
{
    let mut digits = Buffer::new();
    push(out, digits.format(n).as_bytes())
}

pub(crate) fn push(out: &mut Vec<u8>, bytes: &[u8]) -> Result<(), Memory>
    ensures { OnOk result (out.new.items ≡ out.old.items ++ bytes.now) }
{
    out.extend_from_slice(bytes)?;
    Ok(())
}
