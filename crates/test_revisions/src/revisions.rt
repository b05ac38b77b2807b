//! Revisions, sure tests, forward intervals and node counts, with values from exact fractions.
ghost use Rattle.std.specs.Prelude.{◌≡◌, length, IfSome};

use crate::table;
use pv_expr::System;
use pv_hc4::{Graph, Revised};
use pv_interval::Interval;
use pv_num::Num;
use pv_parse::parse;
use std::alloc::Global;
use std::process::Abort;
use test_cases::{Ends, domains, is_left};

// What is left of a box.
pub(crate) enum Left {
    Kept,
    Changed(Ends, Ends),
    Empty,
}

// A system of two variables, what a revision leaves of its domains, and whether its constraint is
// sure there.
pub(crate) type Case = (&'static str, Left, bool);

fn first_graph(alloc: Global, system: &System) -> Option<Graph>
    ensures { IfSome result (λ g. g.dims ≡ length system.now.names) }
{
    if system.constraint_count() == 0 {
        return None;
    }
    Graph::of(alloc, system.constraint(0), system.variable_count()).ok()
}

// Whether the program answers what the case says.
fn holds(alloc: Global, case: &Case) -> Option<bool> {
    let system = parse(alloc, case.0.as_bytes()).ok()?;
    let graph = first_graph(alloc, &system)?;
    let mut bx = domains(alloc, &system).ok()?;
    let sure = graph.sure(alloc, &bx).ok()?;
    let answer = graph.revise(alloc, &mut bx).ok()?;
    let left = match case.1 {
        Left::Kept => answer == Revised::Kept,
        Left::Changed(x, y) => answer == Revised::Changed && is_left(&bx, x, y)?,
        Left::Empty => answer == Revised::Empty,
    };
    Some(left && sure == case.2)
}

fn all_hold(rt: &impl Abort, alloc: Global, cases: &[Case]) {
    for (i, case) in cases.iter().enumerate() {
        assert_eq!(rt; holds(alloc, case), Some(true), "case {i}");
    }
}

#[test]
fn sums(rt: HostRuntime) {
    all_hold(&rt, rt.alloc(), &table::SUMS);
}

#[test]
fn products(rt: HostRuntime) {
    all_hold(&rt, rt.alloc(), &table::PRODUCTS);
}

#[test]
fn quotients(rt: HostRuntime) {
    all_hold(&rt, rt.alloc(), &table::QUOTIENTS);
}

#[test]
fn even_powers(rt: HostRuntime) {
    all_hold(&rt, rt.alloc(), &table::EVEN_POWERS);
}

#[test]
fn odd_powers(rt: HostRuntime) {
    all_hold(&rt, rt.alloc(), &table::ODD_POWERS);
}

#[test]
fn sizes_and_choices(rt: HostRuntime) {
    all_hold(&rt, rt.alloc(), &table::SIZES_AND_CHOICES);
}

#[test]
fn shared(rt: HostRuntime) {
    all_hold(&rt, rt.alloc(), &table::SHARED);
}

#[test]
fn sure_or_not(rt: HostRuntime) {
    all_hold(&rt, rt.alloc(), &table::SURE_OR_NOT);
}

// The left side's interval on the domains, and whether no divisor's interval contains 0.
fn forward(alloc: Global, text: &str) -> Option<Option<(Interval, bool)>> {
    let system = parse(alloc, text.as_bytes()).ok()?;
    let graph = first_graph(alloc, &system)?;
    let bx = domains(alloc, &system).ok()?;
    match graph.forward(alloc, &bx).ok()? {
        Some(f) => Some(Some((f.left, f.total))),
        None => Some(None),
    }
}

#[test]
fn forward_by_a_divisor_that_may_be_zero(rt: HostRuntime) {
    let alloc = rt.alloc();
    let from_one = Interval::new(Num::ONE, Num::POS_INF);
    let wide = "Variables x in [0,1]; Constraints 1/x >= 0; End";
    let point = "Variables x in [0,0]; Constraints 1/x >= 0; End";
    assert_eq!(rt;
        forward(alloc, wide),
        Some(from_one.map(|left| (left, false)))
    );
    assert_eq!(rt; forward(alloc, point), Some(None));
}

fn nodes(alloc: Global, text: &str) -> Option<u64> {
    let system = parse(alloc, text.as_bytes()).ok()?;
    Some(first_graph(alloc, &system)?.node_count())
}

#[test]
fn equal_subexpressions_are_one_node(rt: HostRuntime) {
    let alloc = rt.alloc();
    let shared = "Variables x, y; Constraints (x+y)^2 - (x+y) <= 0; End";
    let twice = "Variables x; Constraints x*x + x*x = 2*(x*x); End";
    let mirrored = "Variables x, y; Constraints x + y < y + x; End";
    assert_eq!(rt; nodes(alloc, shared), Some(6));
    assert_eq!(rt; nodes(alloc, twice), Some(5));
    assert_eq!(rt; nodes(alloc, mirrored), Some(4));
}
