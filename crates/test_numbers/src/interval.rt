//! Worked cases, whose values come from exact fractions.
use pv_interval::Interval;
use pv_num::Num;

mod vectors;

#[derive(Clone, Copy)]
pub(crate) enum Operation {
    Add,
    Sub,
    Mul,
    Quotient,
    Min,
    Max,
    Neg,
    Abs,
    Pow,
    Hull,
    Meet,
}

// A mantissa and an exponent; the exponent 999 stands for an infinite end.
pub(crate) type Spelled = (i64, i16);

pub(crate) type Ends = (Spelled, Spelled);

fn spelled((m, e): Spelled) -> Option<Num> {
    if e == 999 {
        return Some(if m < 0 { Num::NEG_INF } else { Num::POS_INF });
    }
    Num::fin(m, e)
}

fn interval((lo, hi): Ends) -> Option<Interval> {
    Interval::new(spelled(lo)?, spelled(hi)?)
}

fn outcome(operation: Operation, n: u8, x: Interval, y: Interval) -> Option<Interval> {
    match operation {
        Operation::Add => Some(x.add(y)),
        Operation::Sub => Some(x.sub(y)),
        Operation::Mul => Some(x.mul(y)),
        Operation::Quotient => x.quotient(y),
        Operation::Min => Some(x.min(y)),
        Operation::Max => Some(x.max(y)),
        Operation::Neg => Some(x.neg()),
        Operation::Abs => Some(x.abs()),
        Operation::Pow => {
            if n > 32 {
                return None;
            }
            Some(x.pow(n))
        }
        Operation::Hull => Some(x.hull(y)),
        Operation::Meet => x.meet(y),
    }
}

fn holds(case: &(Operation, u8, Ends, Ends, Option<Ends>)) -> Option<bool> {
    let x = interval(case.2)?;
    let y = interval(case.3)?;
    let found = outcome(case.0, case.1, x, y);
    match case.4 {
        Some(ends) => Some(found == Some(interval(ends)?)),
        None => Some(found.is_none()),
    }
}

#[test]
fn operations(rt: HostRuntime) {
    for (i, case) in vectors::CASES.iter().enumerate() {
        assert_eq!(rt; holds(case), Some(true), "case {i}");
    }
}
