//! The picture of an open paving, and sinks that fail.
ghost use Rattle.std.specs.Prelude.{IsTrue};
ghost use Rattle.pv_svg.specs.Pixels.{IsFinite};

use pv_box::IBox;
use pv_interval::Interval;
use pv_io::MemSink;
use pv_num::{Memory, Num};
use pv_svg::{FileWriteRefused, Picture, slice};
use pv_tree::Paving;
use std::alloc::Global;
use std::test::Fail;

const OPEN: &str =
    "<svg xmlns=\"http://www.w3.org/2000/svg\" width=\"1000\" height=\"1000\" viewBox=\"0 0 1000 1000\">\n<rect x=\"0\" y=\"0\" width=\"1000\" height=\"1000\" fill=\"#ffffff\"/>\n</svg>\n";

// Whether an interval has no infinite end.
fn is_finite(part: Interval) -> bool
    ensures { IsTrue result → IsFinite part }
{
    part.lo() != Num::NEG_INF && part.hi() != Num::POS_INF
}

// The picture of an open leaf over the square [0,1] × [0,1].
fn open_square(alloc: Global, x: u8, y: u8) -> Result<Picture, Memory> {
    let place = Interval::new(Num::ZERO, Num::ONE).ok_or(Memory)?;
    if !is_finite(place) || x == y || x > 1 || y > 1 {
        return Err(Memory);
    }
    let paving = Paving::open(alloc, IBox::new(vec![in alloc; place; 2]?))?;
    slice(alloc, &paving, x, y, &[])
}

#[test]
fn an_open_leaf_is_white(rt: HostRuntime) -> Result<(), Fail> {
    let alloc = rt.alloc();
    let picture = open_square(alloc, 0, 1)?;
    let mut sink = MemSink::new(alloc, Vec::new(alloc));
    picture.write(alloc, &mut sink)?;
    assert_eq!(rt; sink.bytes(), OPEN.as_bytes());
    Ok(())
}

#[test]
fn a_sink_fails(rt: HostRuntime) -> Result<(), Fail> {
    let alloc = rt.alloc();
    let picture = open_square(alloc, 1, 0)?;
    let mut failing = Vec::new(alloc);
    failing.push(0)?;
    let mut sink = MemSink::new(alloc, failing);
    assert_eq!(rt;
        picture.write(alloc, &mut sink),
        Err(FileWriteRefused::WriteFailed)
    );
    picture.write(alloc, &mut sink)?;
    assert_eq!(rt; sink.bytes(), OPEN.as_bytes());
    Ok(())
}
