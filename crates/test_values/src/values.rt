//! Systems whose least value is known, and what a search tells of it.

use crate::table;
use crate::worked::{search, told};
use pv_least::Least;
use pv_num::{End, Num};
use std::alloc::Global;
use std::process::Abort;

/// The least value of an expression over a set, worked out by hand.
pub(crate) enum Known {
    /// A fraction.
    At(i128, u128),
    /// It has values below every number.
    Unbounded,
    /// Every value is above all finite numbers of the format.
    Huge,
    /// It has no value at any member.
    Nowhere,
}

/// A system, an expression, a budget, the known value, and what the search tells.
pub(crate) type Case = (&'static str, &'static str, u64, Known, &'static str);

// Whether what was found agrees with the known value.
fn agrees(found: &Least, known: &Known) -> Option<bool> {
    match (known, &found.best) {
        (Known::At(p, q), Some(best)) => {
            let low = ratio(*p, *q, End::Down)?;
            let high = ratio(*p, *q, End::Up)?;
            Some(found.lower <= low && high <= best.upper)
        }
        (Known::At(p, q), None) => Some(found.lower <= ratio(*p, *q, End::Down)?),
        (Known::Unbounded, _) => Some(found.lower == Num::NEG_INF),
        (Known::Huge, Some(best)) => Some(best.upper == Num::POS_INF),
        (Known::Huge, None) => Some(true),
        (Known::Nowhere, best) => Some(best.is_none()),
    }
}

// A fraction of small numbers.
fn ratio(p: i128, q: u128, side: End) -> Option<Num> {
    if p.unsigned_abs() > 1_000_000_000 || q == 0 || q > 1_000_000_000 {
        return None;
    }
    Some(Num::from_ratio(p, q, side))
}

fn holds(alloc: Global, case: &Case) -> Option<bool> {
    let found = search(alloc, case.0, case.1, Num::fin(1, -3)?, case.2)?;
    let line = told(alloc, &found).ok()?;
    Some(line.as_slice() == case.4.as_bytes() && agrees(&found, &case.3)?)
}

fn all_hold(rt: &impl Abort, alloc: Global, cases: &[Case]) {
    for (i, case) in cases.iter().enumerate() {
        assert_eq!(rt; holds(alloc, case), Some(true), "case {i}");
    }
}

#[test]
fn quadratics(rt: HostRuntime) {
    all_hold(&rt, rt.alloc(), &table::QUADRATICS);
}

#[test]
fn products(rt: HostRuntime) {
    all_hold(&rt, rt.alloc(), &table::PRODUCTS);
}

#[test]
fn quotients(rt: HostRuntime) {
    all_hold(&rt, rt.alloc(), &table::QUOTIENTS);
}

#[test]
fn unbounded_sets(rt: HostRuntime) {
    all_hold(&rt, rt.alloc(), &table::UNBOUNDED_SETS);
}

#[test]
fn empty_and_undefined(rt: HostRuntime) {
    all_hold(&rt, rt.alloc(), &table::EMPTY_AND_UNDEFINED);
}

// A budget that ends before, at and behind the settling that finds the first point.
static PIECES: [Case; 3] = [
    (
        "Variables x in [0,1]; Constraints 1/x >= 0; end",
        "x",
        1,
        Known::At(0, 1),
        "lower 0:0 settled 1 open",
    ),
    (
        "Variables x in [0,1]; Constraints 1/x >= 0; end",
        "x",
        3,
        Known::At(0, 1),
        "lower 0:0 settled 3 open",
    ),
    (
        "Variables x in [0,1]; Constraints 1/x >= 0; end",
        "x",
        4,
        Known::At(0, 1),
        "lower 0:0 upper 1:-2 point 1:-2 settled 4 done",
    ),
];

#[test]
fn a_budget_ends(rt: HostRuntime) {
    let alloc = rt.alloc();
    for (i, case) in PIECES.iter().enumerate() {
        let found = Num::fin(1, -2).and_then(|eps| search(alloc, case.0, case.1, eps, case.2));
        let line = found.and_then(|found| told(alloc, &found).ok());
        let same = line.map(|line| line.as_slice() == case.4.as_bytes());
        assert_eq!(rt; same, Some(true), "case {i}");
    }
}
