//! What programs leave of boxes, where they are sure, and how many revisions they need, with values
//! from exact fractions.
ghost use Rattle.std.specs.Prelude.{◌≡◌, ◌<◌, None};

use crate::table;
use pv_box::IBox;
use pv_ctc::{Counter, Graphs, Program};
use pv_expr::System;
use pv_hc4::Steps;
use pv_parse::parse;
use std::alloc::Global;
use std::marker::Brand;
use std::process::Abort;
use std::sync::ledger::{Blank, Ledger};
use test_cases::{Ends, domains, is_left};

// What is left of a box.
pub(crate) enum Left {
    Nothing,
    Places(Ends, Ends),
}

// A system of two variables, a program, what it leaves of the domains, whether it is sure on them,
// and how many revisions the contraction needs.
pub(crate) type Case = (&'static str, &'static str, Left, bool, u64);

// Counts revisions in a number that a test can read.
#[derive(Drop)]
struct Tally {
    count: u64,
}

impl Counter for Tally {
    ghost told = { λ _. None };

    fn counts(&self) -> bool {
        true
    }

    fn tick(&mut self) {
        self.count = self.count.wrapping_add(1);
    }
}

// What a program leaves of the domains, by each call, how many revisions it made, and whether it is
// sure on them.
#[derive(Drop)]
struct Worked {
    left: Option<IBox>,
    counted: Option<IBox>,
    tallied: Option<IBox>,
    count: u64,
    sure: bool,
}

fn work_out<L: Ledger>(alloc: Global, blank: Blank, system: &System, text: &[u8]) -> Option<Worked>
    requires name { blank.name ≡ L.name }
    requires parts { blank.parts ≡ L.parts }
    requires some { 0 < blank.parts }
{
    let graphs = Graphs::of(alloc, system).ok()?;
    let program = Program::read(alloc, text, graphs.count()).ok()?;
    let bx = domains(alloc, system).ok()?;
    let mut steps = Steps::<L>::open(blank);
    let mut tally = Tally { count: 0 };
    Some(Worked {
        left: program.contract(alloc, &graphs, &bx).ok()?,
        counted: program
            .contract_counted(alloc, &graphs, &bx, &mut steps)
            .ok()?,
        tallied: program.contract_by(alloc, &graphs, &bx, &mut tally).ok()?,
        count: tally.count,
        sure: program.sure(alloc, &graphs, &bx).ok()?,
    })
}

fn is_expected(left: &Option<IBox>, expected: &Left) -> Option<bool> {
    match (left, expected) {
        (None, Left::Nothing) => Some(true),
        (Some(bx), Left::Places(x, y)) => is_left(bx, *x, *y),
        _ => Some(false),
    }
}

// Whether the program answers what the case says.
fn holds(alloc: Global, case: &Case) -> Option<bool> {
    let system = parse(alloc, case.0.as_bytes()).ok()?;
    let found = work_out::<Brand>(alloc, Blank::new(1), &system, case.1.as_bytes())?;
    let same = is_expected(&found.left, &case.2)?
        && is_expected(&found.counted, &case.2)?
        && is_expected(&found.tallied, &case.2)?;
    Some(same && found.sure == case.3 && found.count == case.4)
}

fn all_hold(rt: &impl Abort, alloc: Global, cases: &[Case]) {
    for (i, case) in cases.iter().enumerate() {
        assert_eq!(rt; holds(alloc, case), Some(true), "case {i}");
    }
}

#[test]
fn single_constraints_and_compositions(rt: HostRuntime) {
    all_hold(&rt, rt.alloc(), &table::IN_ORDER);
}

#[test]
fn unions(rt: HostRuntime) {
    all_hold(&rt, rt.alloc(), &table::UNIONS);
}

#[test]
fn q_intersections(rt: HostRuntime) {
    all_hold(&rt, rt.alloc(), &table::Q_INTERSECTIONS);
}

#[test]
fn clean_constraints(rt: HostRuntime) {
    all_hold(&rt, rt.alloc(), &table::CLEAN);
}

#[test]
fn turns(rt: HostRuntime) {
    all_hold(&rt, rt.alloc(), &table::TURNS);
}
