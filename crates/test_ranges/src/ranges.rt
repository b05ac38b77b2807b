//! Centered forms of left - right, with values from exact fractions.
ghost use Rattle.std.specs.Prelude.{◌≡◌, length, IfSome};

use crate::table;
use pv_expr::System;
use pv_interval::Interval;
use pv_num::Num;
use pv_parse::parse;
use pv_slope::Slopes;
use std::alloc::Global;
use std::process::Abort;
use test_cases::{Ends, Spelled, domains};

// A system of two variables, and the centered form of its constraint on its domains.
pub(crate) type Case = (&'static str, Option<Ends>);

fn number((mantissa, exponent): Spelled) -> Option<Num> {
    if exponent == 999 {
        return Some(if mantissa < 0 {
            Num::NEG_INF
        } else {
            Num::POS_INF
        });
    }
    Num::fin(mantissa, exponent)
}

// The interval of two ends as they are written.
pub(crate) fn interval((lo, hi): Ends) -> Option<Interval> {
    Interval::new(number(lo)?, number(hi)?)
}

pub(crate) fn first_slopes(alloc: Global, system: &System) -> Option<Slopes>
    ensures { IfSome result (λ s. s.dims ≡ length system.now.names) }
{
    if system.constraint_count() == 0 {
        return None;
    }
    Slopes::of(alloc, system.constraint(0), system.variable_count()).ok()
}

// Whether the program answers what the case says.
fn holds(alloc: Global, case: &Case) -> Option<bool> {
    let system = parse(alloc, case.0.as_bytes()).ok()?;
    let slopes = first_slopes(alloc, &system)?;
    let bx = domains(alloc, &system).ok()?;
    let range = slopes.range(alloc, &bx).ok()?;
    match case.1 {
        Some(ends) => Some(range == Some(interval(ends)?)),
        None => Some(range.is_none()),
    }
}

fn all_hold(rt: &impl Abort, alloc: Global, cases: &[Case]) {
    for (i, case) in cases.iter().enumerate() {
        assert_eq!(rt; holds(alloc, case), Some(true), "case {i}");
    }
}

#[test]
fn sums_and_products(rt: HostRuntime) {
    all_hold(&rt, rt.alloc(), &table::SUMS_AND_PRODUCTS);
}

#[test]
fn quotients(rt: HostRuntime) {
    all_hold(&rt, rt.alloc(), &table::QUOTIENTS);
}

#[test]
fn powers(rt: HostRuntime) {
    all_hold(&rt, rt.alloc(), &table::POWERS);
}

#[test]
fn sizes_and_choices(rt: HostRuntime) {
    all_hold(&rt, rt.alloc(), &table::SIZES_AND_CHOICES);
}

#[test]
fn ends(rt: HostRuntime) {
    all_hold(&rt, rt.alloc(), &table::ENDS);
}

#[test]
fn systems(rt: HostRuntime) {
    all_hold(&rt, rt.alloc(), &table::SYSTEMS);
}
