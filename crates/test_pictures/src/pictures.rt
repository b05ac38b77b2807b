//! Pictures of pavings of 2, 3 and 12 variables, with texts from exact fractions.
ghost use Rattle.std.specs.Prelude.{◌≡◌, ◌<◌, IsTrue, length};
ghost use Rattle.pv_svg.specs.Planes.{place};
ghost use Rattle.pv_svg.specs.Pixels.{IsFinite};

use crate::table;
use pv_box::IBox;
use pv_file::read;
use pv_interval::Interval;
use pv_io::PlainSink;
use pv_num::Num;
use pv_svg::slice;
use std::alloc::Global;
use std::process::Abort;

/// A mantissa and an exponent.
pub(crate) type Spelled = (i64, i16);

/// The root box, the node lines of version 1, the axes, the other places' numbers, and the lines of
/// the rectangles.
pub(crate) struct Case {
    pub(crate) root: &'static [(Spelled, Spelled)],
    pub(crate) lines: &'static str,
    pub(crate) x: u8,
    pub(crate) y: u8,
    pub(crate) at: &'static [Spelled],
    pub(crate) rectangles: &'static str,
}

const IDENTITY: [u8; 32] = [0; 32];

const HEADER: &str =
    "paving 1\nidentity 0000000000000000000000000000000000000000000000000000000000000000\n";

const HEAD: &str =
    "<svg xmlns=\"http://www.w3.org/2000/svg\" width=\"1000\" height=\"1000\" viewBox=\"0 0 1000 1000\">\n";

fn number((mantissa, exponent): Spelled) -> Option<Num> {
    Num::fin(mantissa, exponent)
}

fn numbers(alloc: Global, spelled: &[Spelled]) -> Option<Vec<Num>> {
    let mut numbers = Vec::new(alloc);
    for one in spelled {
        numbers.push(number(*one)?).ok()?;
    }
    Some(numbers)
}

fn root_box(alloc: Global, case: &Case) -> Option<IBox> {
    let mut parts = Vec::new(alloc);
    for (lo, hi) in case.root {
        parts.push(Interval::new(number(*lo)?, number(*hi)?)?).ok()?;
    }
    if parts.is_empty() || parts.len() > 12 {
        return None;
    }
    Some(IBox::new(parts))
}

fn joined(alloc: Global, one: &str, two: &str, three: &str) -> Option<Vec<u8>> {
    let mut text = Vec::from_slice(alloc, one.as_bytes()).ok()?;
    text.extend_from_slice(two.as_bytes()).ok()?;
    text.extend_from_slice(three.as_bytes()).ok()?;
    Some(text)
}

// Whether a place of a box has no infinite end.
fn is_finite(bx: &IBox, i: u8) -> bool
    requires { i < length bx.now }
    ensures { IsTrue result → IsFinite (place bx.now i) }
{
    let part = bx.get(i);
    part.lo() != Num::NEG_INF && part.hi() != Num::POS_INF
}

// The text of a case's picture.
fn picture(alloc: Global, case: &Case) -> Option<PlainSink> {
    let root = root_box(alloc, case)?;
    let text = joined(alloc, HEADER, case.lines, "")?;
    let paving = read(alloc, &text, IDENTITY, &root).ok()?;
    let at = numbers(alloc, case.at)?;
    let places = root.dims();
    if case.x >= places || case.y >= places || case.x == case.y || at.len() + 2 != places as usize {
        return None;
    }
    if !is_finite(&root, case.x) || !is_finite(&root, case.y) {
        return None;
    }
    let picture = slice(alloc, &paving, case.x, case.y, &at).ok()?;
    let mut sink = PlainSink::new(alloc);
    picture.write(alloc, &mut sink).ok()?;
    Some(sink)
}

fn all_hold(rt: &impl Abort, alloc: Global, cases: &[Case]) {
    for (i, case) in cases.iter().enumerate() {
        let sink = picture(alloc, case);
        let wanted = joined(alloc, HEAD, case.rectangles, "</svg>\n");
        assert!(rt; sink.is_some() && wanted.is_some(), "case {i}");
        if let (Some(sink), Some(wanted)) = (sink, wanted) {
            assert_eq!(rt; sink.bytes(), wanted.as_slice(), "case {i}");
        }
    }
}

#[test]
fn plain(rt: HostRuntime) {
    all_hold(&rt, rt.alloc(), &table::PLAIN);
}

#[test]
fn axes(rt: HostRuntime) {
    all_hold(&rt, rt.alloc(), &table::AXES);
}

#[test]
fn slices(rt: HostRuntime) {
    all_hold(&rt, rt.alloc(), &table::SLICES);
}
