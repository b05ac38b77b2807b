//! What boxes are settled as, with values from exact fractions.
ghost use Rattle.std.specs.Prelude.{◌≡◌, ◌≤◌, length, IfSome};
ghost use Rattle.pv_settle.specs.Rules.{dims_of};
ghost use Rattle.pv_settle.specs.Settlers.{rule_of};

use crate::ranges::interval;
use crate::table;
use pv_box::{Bisector, IBox};
use pv_ctc::Program;
use pv_num::Num;
use pv_parse::parse;
use pv_slope::CenteredSettler;
use pv_tree::Outcome;
use std::alloc::Global;
use test_cases::Ends;

// What a box of one place is settled as, and what is left of it.
pub(crate) enum As {
    Removed,
    Inner(Ends),
    Small(Ends),
    Cut(Ends),
}

// A system of one variable, a program, how many cuts are allowed, and what its search box is
// settled as.
pub(crate) type Settled = (&'static str, &'static str, u32, As);

// The settler of a text and a program, by which only boxes without width are narrow enough.
fn settler(alloc: Global, text: &[u8], program: &[u8]) -> Option<CenteredSettler> {
    let system = parse(alloc, text).ok()?;
    let program = Program::read(alloc, program, system.constraint_count()).ok()?;
    CenteredSettler::new(alloc, system, program, Num::ZERO, 60, Bisector::Largest).ok()
}

fn is_left(to: &IBox, ends: Ends) -> Option<bool> {
    Some(to.dims() == 1 && to.get(0) == interval(ends)?)
}

// Whether the settler answers what the case says.
fn holds(alloc: Global, case: &Settled) -> Option<bool> {
    let settler = settler(alloc, case.0.as_bytes(), case.1.as_bytes())?;
    let bx = settler.search_box(alloc).ok()?;
    let outcome = settler.settle(alloc, &bx, case.2, 0).ok()?;
    match (&outcome, &case.3) {
        (Outcome::Removed, As::Removed) => Some(true),
        (Outcome::Inner { to }, As::Inner(ends)) => is_left(to, *ends),
        (Outcome::Small { to }, As::Small(ends)) => is_left(to, *ends),
        (Outcome::Cut { to, .. }, As::Cut(ends)) => is_left(to, *ends),
        _ => Some(false),
    }
}

#[test]
fn boxes(rt: HostRuntime) {
    for (i, case) in table::SETTLED.iter().enumerate() {
        assert_eq!(rt; holds(rt.alloc(), case), Some(true), "case {i}");
    }
}
