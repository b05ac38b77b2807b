//! Pictures, and their text, handed to a sink in pieces.
ghost use Rattle.std.specs.Prelude.{◌≡◌, ◌≤◌, [], OnOk, OnErr, IsErrOf};
ghost use Rattle.pv_io.specs.Outside.{Rose, appended, AppendsFront};
ghost use Rattle.pv_svg.specs.Texts.{picture_text};

use crate::rectangle::Rectangle;
use crate::text::{FOOT, HEAD, LONGEST_LINE, push, push_rectangle};
use pv_interval::Interval;
use pv_io::{FileWriteRefused, PIECE, Sink, hand_over_held, hand_over_piece};
use std::alloc::Global;
use std::marker::Model;

/// The picture of a slice of a paving: two finite axes, and rectangles that lie between their ends.
#[derive(Drop)]
pub struct Picture {
    pub(crate) x: Interval,
    pub(crate) y: Interval,
    pub(crate) rectangles: Vec<Rectangle>,
}

impl Model for Picture {
    ghost use Rattle.pv_svg.specs.Rectangles.{Drawn, IsPicture};

    ghost Value = { Drawn };

    ghost view = { λ a. record { x = a.x; y = a.y; rectangles = a.rectangles.items } };

    ghost invariant = { λ a. IsPicture (record { x = a.x; y = a.y; rectangles = a.rectangles.items }) };
}

impl Picture {
    /// Hands the picture's SVG text to a sink.
    pub fn write<K: Sink>(&self, alloc: Global, sink: &mut K) -> Result<(), FileWriteRefused>
        ensures whole { OnOk result
            (K.written sink.new ≡ appended (K.written sink.old) (picture_text self.now)) }
        ensures front { OnErr result
            (AppendsFront (K.written sink.old) (K.written sink.new) (picture_text self.now)) }
        ensures cause { IsErrOf result FileWriteRefused.WriteFailed →
            Rose (K.faults sink.old) (K.faults sink.new) }
        ensures counts_on { K.faults sink.old ≤ K.faults sink.new }
    {
        let mut held = Vec::with_capacity(alloc, PIECE + LONGEST_LINE)?;
        push(&mut held, HEAD)?;
        for i in 0..self.rectangles.len() {
            push_rectangle(&self.x, &self.y, &self.rectangles[i], &mut held)?;
            hand_over_piece(&mut held, sink)?;
        }
        push(&mut held, FOOT)?;
        hand_over_held(&mut held, sink)
    }
}
