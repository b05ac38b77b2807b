//! A paving's text, handed to a sink in pieces.
ghost use Rattle.std.specs.Prelude.{◌≡◌, ◌+◌, ◌≤◌, ◌++◌, ◌∷◌, [], Some, OnOk, OnErr, IsErrOf, IsTrue, length};
ghost use Rattle.pv_io.specs.Outside.{Rose, appended, AppendsFront};
ghost use Rattle.pv_tree.specs.Trees.{shape_of, to_at};
ghost use Rattle.pv_tree.specs.Pieces.{IsPiece};
ghost use Rattle.pv_file.specs.Lines.{lines_of, top_line};
ghost use Rattle.pv_file.specs.Shapes.{keeps_of};
ghost use Rattle.pv_file.specs.Texts.{file_text, header_text};

use crate::header::push_header;
use crate::lines::{keeps, push_shape, scratch_box};
use crate::version::Version;
use pv_box::IBox;
use pv_io::{FileWriteRefused, PIECE, Sink, hand_over, hand_over_held, hand_over_piece};
use pv_num::Memory;
use pv_tree::{Paving, Shape, Walk};
use std::alloc::Global;

/// The most bytes of a settled node's line, its line feed among them.
pub const LONGEST_LINE: usize = 660;

// Room for a line, that of an open leaf included.
const LINE_ROOM: usize = 700;

/// Hands the version 2 text of a paving's file to a sink.
pub fn write<K: Sink>(
    alloc: Global,
    p: &Paving,
    identity: [u8; 32],
    sink: &mut K,
) -> Result<(), FileWriteRefused>
    ensures whole { OnOk result
        (K.written sink.new
        ≡ appended (K.written sink.old) (file_text Version.Two identity p.now.root p.now.tree)) }
    ensures front { OnErr result
        (AppendsFront (K.written sink.old) (K.written sink.new)
        (file_text Version.Two identity p.now.root p.now.tree)) }
    ensures cause { IsErrOf result FileWriteRefused.WriteFailed
        → Rose (K.faults sink.old) (K.faults sink.new) }
    ensures counts_on { K.faults sink.old ≤ K.faults sink.new }
{
    let mut held = Vec::with_capacity(alloc, PIECE + LINE_ROOM)?;
    push_header(Version::Two, &identity, &mut held)?;
    write_nodes(alloc, p, Version::Two, held, sink)
}

/// Hands the two lines before the nodes to a sink.
pub fn write_header<K: Sink>(
    alloc: Global,
    version: Version,
    identity: &[u8; 32],
    sink: &mut K,
) -> Result<(), FileWriteRefused>
    ensures whole { OnOk result
        (K.written sink.new ≡ appended (K.written sink.old) (header_text version identity.now)) }
    ensures front { OnErr result
        (AppendsFront (K.written sink.old) (K.written sink.new)
        (header_text version identity.now)) }
    ensures cause { IsErrOf result FileWriteRefused.WriteFailed
        → Rose (K.faults sink.old) (K.faults sink.new) }
    ensures counts_on { K.faults sink.old ≤ K.faults sink.new }
{
    let mut held = Vec::new(alloc);
    push_header(version, identity, &mut held)?;
    hand_over(&held, sink)
}

/// Hands the version 1 lines of a paving's nodes to a sink, each with its line feed.
pub fn write_lines<K: Sink>(alloc: Global, p: &Paving, sink: &mut K) -> Result<(), FileWriteRefused>
    ensures whole { OnOk result
        (K.written sink.new
        ≡ appended (K.written sink.old) (lines_of Version.One p.now.root p.now.tree)) }
    ensures front { OnErr result
        (AppendsFront (K.written sink.old) (K.written sink.new)
        (lines_of Version.One p.now.root p.now.tree)) }
    ensures cause { IsErrOf result FileWriteRefused.WriteFailed
        → Rose (K.faults sink.old) (K.faults sink.new) }
    ensures counts_on { K.faults sink.old ≤ K.faults sink.new }
{
    let held = Vec::with_capacity(alloc, PIECE + LINE_ROOM)?;
    write_nodes(alloc, p, Version::One, held, sink)
}

// Hands over the bytes that are held already, and then the lines of all nodes.
fn write_nodes<K: Sink>(
    alloc: Global,
    p: &Paving,
    version: Version,
    held: Vec<u8>,
    sink: &mut K,
) -> Result<(), FileWriteRefused>
    ensures whole { OnOk result
        (K.written sink.new
        ≡ appended (K.written sink.old) (held.items ++ lines_of version p.now.root p.now.tree)) }
    ensures front { OnErr result
        (AppendsFront (K.written sink.old) (K.written sink.new)
        (held.items ++ lines_of version p.now.root p.now.tree)) }
    ensures cause { IsErrOf result FileWriteRefused.WriteFailed
        → Rose (K.faults sink.old) (K.faults sink.new) }
    ensures counts_on { K.faults sink.old ≤ K.faults sink.new }
{
    let mut held = held;
    let mut bx = scratch_box(alloc, p.dims())?;
    let mut to = scratch_box(alloc, p.dims())?;
    let mut walk = Walk::of(alloc, p)?;
    while let Some(shape) = walk.next() {
        push_visited(&walk, shape, version, &mut bx, &mut to, &mut held)?;
        hand_over_piece(&mut held, sink)?;
    }
    hand_over_held(&mut held, sink)
}

// Appends the line of the node that a walk has just visited.
pub(crate) fn push_visited(
    walk: &Walk<'_>,
    shape: Shape,
    version: Version,
    bx: &mut IBox,
    to: &mut IBox,
    out: &mut Vec<u8>,
) -> Result<(), Memory>
    requires shape { shape ≡ shape_of (Some walk.now.here.tree) }
    requires piece { IsPiece walk.now.root walk.now.tree walk.now.here }
    requires bx { length bx.old ≡ length walk.now.root }
    requires to { length to.old ≡ length walk.now.root }
    ensures bx { length bx.new ≡ length bx.old }
    ensures to { length to.new ≡ length to.old }
    ensures line { OnOk result
        (out.new.items ≡ out.old.items
        ++ (top_line version walk.now.here.box walk.now.here.tree ++ 10 ∷ [])) }
{
    write_boxes(walk, &shape, bx, to);
    push_shape(version, &shape, bx, to, out)?;
    out.push(b'\n')?;
    Ok(())
}

// Writes the box of the node that a walk has just visited, and what the node kept of it, over two
// boxes. They are left alone where it kept nothing.
fn write_boxes(walk: &Walk<'_>, shape: &Shape, bx: &mut IBox, to: &mut IBox)
    requires shape { shape.now ≡ shape_of (Some walk.now.here.tree) }
    requires bx { length bx.old ≡ length walk.now.root }
    requires to { length to.old ≡ length walk.now.root }
    ensures bx { length bx.new ≡ length bx.old }
    ensures to { length to.new ≡ length to.old }
    ensures of_node { IsTrue (keeps_of shape.now) → bx.new ≡ walk.now.here.box }
    ensures kept { IsTrue (keeps_of shape.now) → to_at walk.now.here.tree [] ≡ Some to.new }
{
    if keeps(shape) {
        walk.write_box(bx);
        walk.write_to(to);
    }
}
