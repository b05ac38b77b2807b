//! Slopes of left - right, with values from exact fractions.
use crate::ranges::{first_slopes, interval};
use crate::table;
use pv_parse::parse;
use std::alloc::Global;
use test_cases::{Ends, domains};

// A system of two variables, one of them, and the slope of the system's constraint for it on the
// domains.
pub(crate) type Slope = (&'static str, u8, Option<Ends>);

// Whether the program answers what the case says.
fn holds(alloc: Global, case: &Slope) -> Option<bool> {
    let system = parse(alloc, case.0.as_bytes()).ok()?;
    let slopes = first_slopes(alloc, &system)?;
    let bx = domains(alloc, &system).ok()?;
    let slope = slopes.slope(alloc, &bx, case.1).ok()?;
    match case.2 {
        Some(ends) => Some(slope == Some(interval(ends)?)),
        None => Some(slope.is_none()),
    }
}

#[test]
fn slopes(rt: HostRuntime) {
    for (i, case) in table::SLOPES.iter().enumerate() {
        assert_eq!(rt; holds(rt.alloc(), case), Some(true), "case {i}");
    }
}
