//! The lines of nodes.
ghost use Rattle.std.specs.Prelude.{◌≡◌, ◌+◌, ◌<◌, ◌≤◌, ◌++◌, ◌∷◌, IfOk, IsSome, OnOk, OnErr, length, drop};
ghost use Rattle.std.specs.Io.{StartsWith};
ghost use Rattle.pv_num.specs.Parts.{number_text};
ghost use Rattle.pv_tree.specs.Trees.{subtree, shape_of, outcome_at};
ghost use Rattle.pv_file.specs.Lines.{change_text, ends_text, changes_text, kept_text, cut_text, outcome_line};
ghost use Rattle.pv_file.specs.Shapes.{AppendsNodeLine, outcome_of, shape_line, keeps_of};
ghost use Rattle.pv_box.specs.declared.boxes.TheConstants.{MOST_PLACES};

use crate::version::Version;
use itoa::Buffer;
use pv_box::IBox;
use pv_interval::Interval;
use pv_num::{Memory, Num};
use pv_tree::{Outcome, Path, Paving, Shape};
use std::alloc::Global;

/// Appends the line of the node at a path, in version 1 and without its line feed. After a refusal
/// the text is as before.
pub fn write_node(alloc: Global, p: &Paving, path: Path, out: &mut Vec<u8>) -> Result<(), Memory>
    requires there { IsSome (subtree p.now.tree path) }
    ensures line { OnOk result
        (AppendsNodeLine out.old.items out.new.items (subtree p.now.tree path)) }
    ensures unchanged { OnErr result (out.new.items ≡ out.old.items) }
{
    let before = out.len();
    let answer = push_node(alloc, p, path, out);
    if answer.is_err() {
        out.truncate(before);
    }
    answer
}

fn push_node(alloc: Global, p: &Paving, path: Path, out: &mut Vec<u8>) -> Result<(), Memory>
    requires there { IsSome (subtree p.now.tree path) }
    ensures line { OnOk result
        (AppendsNodeLine out.old.items out.new.items (subtree p.now.tree path)) }
    ensures grown { StartsWith out.new.items out.old.items }
{
    let mut to = scratch_box(alloc, p.dims())?;
    let shape = p.shape_at(path);
    write_to(p, path, &shape, &mut to);
    push_shape(Version::One, &shape, &to, &to, out)
}

// Writes what the node at a path kept of its box over another box, if it kept something.
fn write_to(p: &Paving, path: Path, shape: &Shape, to: &mut IBox)
    requires shape { shape.now ≡ shape_of (subtree p.now.tree path) }
    requires dims { length to.old ≡ length p.now.root }
    ensures outcome { outcome_of shape.now to.new ≡ outcome_at p.now.tree path }
{
    if keeps(shape) {
        p.to_at(path, to);
    }
}

/// Appends the line of an outcome, in version 1 and without its line feed. After a refusal the text
/// is as before.
pub fn write_outcome(o: &Outcome, out: &mut Vec<u8>) -> Result<(), Memory>
    ensures line { OnOk result (out.new.items ≡ out.old.items ++ outcome_line o.now) }
    ensures unchanged { OnErr result (out.new.items ≡ out.old.items) }
{
    let before = out.len();
    let answer = push_outcome(o, out);
    if answer.is_err() {
        out.truncate(before);
    }
    answer
}

fn push_outcome(o: &Outcome, out: &mut Vec<u8>) -> Result<(), Memory>
    ensures line { OnOk result (out.new.items ≡ out.old.items ++ outcome_line o.now) }
    ensures grown { StartsWith out.new.items out.old.items }
{
    match o {
        Outcome::Removed => push(out, b"X"),
        Outcome::Inner { to } => push_box(Version::One, b'I', to, to, out),
        Outcome::Small { to } => push_box(Version::One, b'S', to, to, out),
        Outcome::Cut { to, var, at } => {
            push_cut(*var, *at, out)?;
            push_kept(Version::One, to, to, out)
        }
    }
}

/// Appends the line of a node by its shape, its box, and what it kept of that box, without its line
/// feed.
pub(crate) fn push_shape(
    version: Version,
    shape: &Shape,
    bx: &IBox,
    to: &IBox,
    out: &mut Vec<u8>,
) -> Result<(), Memory>
    requires dims { length bx.now ≡ length to.now }
    ensures line { OnOk result
        (out.new.items ≡ out.old.items ++ shape_line version bx.now shape.now to.now) }
    ensures grown { StartsWith out.new.items out.old.items }
{
    match shape {
        Shape::Absent | Shape::OpenLeaf => push(out, b"O"),
        Shape::Removed => push(out, b"X"),
        Shape::Inner => push_box(version, b'I', bx, to, out),
        Shape::Small => push_box(version, b'S', bx, to, out),
        Shape::Cut { var, at } => {
            push_cut(*var, *at, out)?;
            push_kept(version, bx, to, out)
        }
    }
}

/// Whether a node of this shape kept something of its box.
pub(crate) fn keeps(shape: &Shape) -> bool
    ensures { result ≡ keeps_of shape.now }
{
    match shape {
        Shape::Absent | Shape::OpenLeaf | Shape::Removed => false,
        Shape::Inner | Shape::Small | Shape::Cut { .. } => true,
    }
}

/// A box of `places` places, to write over.
pub(crate) fn scratch_box(alloc: Global, places: u8) -> Result<IBox, Memory>
    requires some { 0 < places }
    requires few { places ≤ MOST_PLACES }
    ensures { IfOk result (λ b. length b ≡ places) }
{
    Ok(IBox::new(vec![in alloc; Interval::ALL; places as usize]?))
}

fn push_box(
    version: Version,
    letter: u8,
    bx: &IBox,
    to: &IBox,
    out: &mut Vec<u8>,
) -> Result<(), Memory>
    requires dims { length bx.now ≡ length to.now }
    ensures line { OnOk result
        (out.new.items ≡ out.old.items ++ letter ∷ kept_text version bx.now to.now) }
    ensures grown { StartsWith out.new.items out.old.items }
{
    out.push(letter)?;
    push_kept(version, bx, to, out)
}

fn push_cut(var: u8, at: Num, out: &mut Vec<u8>) -> Result<(), Memory>
    ensures line { OnOk result (out.new.items ≡ out.old.items ++ cut_text var at) }
    ensures grown { StartsWith out.new.items out.old.items }
{
    let mut digits = Buffer::new();
    out.extend_from_slice(b"C ")?;
    out.extend_from_slice(digits.format(var).as_bytes())?;
    out.push(b' ')?;
    at.write_text(out)
}

fn push_kept(version: Version, bx: &IBox, to: &IBox, out: &mut Vec<u8>) -> Result<(), Memory>
    requires dims { length bx.now ≡ length to.now }
    ensures ends { OnOk result (out.new.items ≡ out.old.items ++ kept_text version bx.now to.now) }
    ensures grown { StartsWith out.new.items out.old.items }
{
    match version {
        Version::One => push_ends(to, 0, out),
        Version::Two => push_changes(bx, to, 0, out),
    }
}

// The ends of each place from the i-th on.
fn push_ends(to: &IBox, i: u8, out: &mut Vec<u8>) -> Result<(), Memory>
    requires { i ≤ length to.now }
    ensures ends { OnOk result (out.new.items ≡ out.old.items ++ ends_text (drop i to.now)) }
    ensures grown { StartsWith out.new.items out.old.items }
{
    if i == to.dims() {
        return Ok(());
    }
    let part = to.get(i);
    push_number(part.lo(), out)?;
    push_number(part.hi(), out)?;
    push_ends(to, i + 1, out)
}

// The ends of each place from the i-th on, against those of the node's box.
fn push_changes(bx: &IBox, to: &IBox, i: u8, out: &mut Vec<u8>) -> Result<(), Memory>
    requires within { i ≤ length to.now }
    requires dims { length bx.now ≡ length to.now }
    ensures ends { OnOk result
        (out.new.items ≡ out.old.items ++ changes_text (drop i bx.now) (drop i to.now)) }
    ensures grown { StartsWith out.new.items out.old.items }
{
    if i == to.dims() {
        return Ok(());
    }
    let part = to.get(i);
    let old = bx.get(i);
    push_change(old.lo(), part.lo(), out)?;
    push_change(old.hi(), part.hi(), out)?;
    push_changes(bx, to, i + 1, out)
}

fn push_number(n: Num, out: &mut Vec<u8>) -> Result<(), Memory>
    ensures text { OnOk result (out.new.items ≡ out.old.items ++ 32 ∷ number_text n) }
    ensures grown { StartsWith out.new.items out.old.items }
{
    out.push(b' ')?;
    n.write_text(out)
}

fn push_change(old: Num, new: Num, out: &mut Vec<u8>) -> Result<(), Memory>
    ensures text { OnOk result (out.new.items ≡ out.old.items ++ 32 ∷ change_text old new) }
    ensures grown { StartsWith out.new.items out.old.items }
{
    if new == old {
        return push(out, b" =");
    }
    push_number(new, out)
}

fn push(out: &mut Vec<u8>, bytes: &[u8]) -> Result<(), Memory>
    ensures text { OnOk result (out.new.items ≡ out.old.items ++ bytes.now) }
    ensures grown { StartsWith out.new.items out.old.items }
{
    out.extend_from_slice(bytes)?;
    Ok(())
}
