//! From what is found of the constraints on a box to what holds of a contractor program's set.

ghost use Rattle.std.specs.Prelude.{◌≡◌, ◌≤◌, ◌+◌, ◌-◌, length, nat_le};
ghost use Rattle.pv_ctc.specs.Plans.{plan_of, plans_of};
ghost use Rattle.pv_ctc.specs.Sureness.{all_true, count_true};
ghost use Rattle.pv_slope.specs.Programs.{test_at, none_by, none_by_each, sure_by, sure_by_each};

use pv_ctc::Program;

fn all_hold(tests: &[bool]) -> bool
    ensures { result ≡ all_true tests.now }
{
    for test in tests {
        if !*test {
            return false;
        }
    }
    true
}

fn some_hold(tests: &[bool]) -> bool
    ensures { result ≡ nat_le 1 (count_true tests.now) }
{
    for test in tests {
        if *test {
            return true;
        }
    }
    false
}

fn holds(tests: &[bool], i: u32) -> bool
    ensures { result ≡ test_at tests.now i }
{
    match tests.get(i as usize) {
        Some(test) => *test,
        None => false,
    }
}

/// Whether no point of a box is in the program's set, where the tests say so of each constraint. A
/// constraint that has no test yet may hold at some point.
#[cycle(emptiness)]
pub(crate) fn has_none(program: &Program, tests: &[bool]) -> bool
    ensures { result ≡ none_by tests.now (plan_of program.now) }
{
    match program {
        Program::Hc4(i) => holds(tests, *i),
        Program::Compose(parts) => so_many_have_none(1, parts, tests),
        Program::Union(parts) => all_have_none(parts, tests),
        Program::QInter(q, parts) => more_have_none(*q, parts, tests),
        Program::Fix(_, part) => has_none(part, tests),
        Program::Prop(_) => some_hold(tests),
    }
}

#[cycle(emptiness)]
fn all_have_none(parts: &[Program], tests: &[bool]) -> bool
    ensures { result ≡ all_true (none_by_each tests.now (plans_of parts.now)) }
{
    for part in parts {
        if !has_none(part, tests) {
            return false;
        }
    }
    true
}

// Whether the parts that hold at no point are so many that fewer than q are left.
#[cycle(emptiness)]
fn more_have_none(q: u32, parts: &[Program], tests: &[bool]) -> bool
    ensures { result ≡
        nat_le (length parts.now - q + 1)
        (count_true (none_by_each tests.now (plans_of parts.now))) }
{
    so_many_have_none(parts.len().saturating_sub(q as usize) + 1, parts, tests)
}

#[cycle(emptiness)]
fn so_many_have_none(wanted: usize, parts: &[Program], tests: &[bool]) -> bool
    ensures { result ≡
        nat_le wanted (count_true (none_by_each tests.now (plans_of parts.now))) }
{
    let mut missing = wanted;
    for part in parts {
        if missing == 0 {
            return true;
        }
        if has_none(part, tests) {
            missing -= 1;
        }
    }
    missing == 0
}

/// Whether each point of a box is in the program's set, where the tests say so of each constraint.
#[cycle(fullness)]
pub(crate) fn is_sure(program: &Program, tests: &[bool]) -> bool
    ensures { result ≡ sure_by tests.now (plan_of program.now) }
{
    match program {
        Program::Hc4(i) => holds(tests, *i),
        Program::Compose(parts) => all_are_sure(parts, tests),
        Program::Union(parts) => so_many_are_sure(1, parts, tests),
        Program::QInter(q, parts) => so_many_are_sure(*q, parts, tests),
        Program::Fix(_, part) => is_sure(part, tests),
        Program::Prop(_) => all_hold(tests),
    }
}

#[cycle(fullness)]
fn all_are_sure(parts: &[Program], tests: &[bool]) -> bool
    ensures { result ≡ all_true (sure_by_each tests.now (plans_of parts.now)) }
{
    for part in parts {
        if !is_sure(part, tests) {
            return false;
        }
    }
    true
}

// Whether at least q of the parts are sure.
#[cycle(fullness)]
fn so_many_are_sure(q: u32, parts: &[Program], tests: &[bool]) -> bool
    ensures { result ≡ nat_le q (count_true (sure_by_each tests.now (plans_of parts.now))) }
{
    let mut missing = q;
    for part in parts {
        if missing == 0 {
            return true;
        }
        if is_sure(part, tests) {
            missing -= 1;
        }
    }
    missing == 0
}
