//! Worked cases, whose values come from exact fractions.
use pv_interval::Interval;
use pv_num::Num;
use pv_project::{
    Rest, back_abs, back_add, back_add_resting, back_div, back_max, back_min, back_mul, back_neg,
    back_pow, back_sub, back_sub_resting,
};

mod vectors;

#[derive(Clone, Copy)]
pub(crate) enum Pairs {
    Add,
    Sub,
    Mul,
    Div,
    Min,
    Max,
}

#[derive(Clone, Copy)]
pub(crate) enum Singles {
    Neg,
    Abs,
    Pow,
}

// A mantissa and an exponent; the exponent 999 stands for an infinite end.
pub(crate) type Spelled = (i64, i16);

pub(crate) type Ends = (Spelled, Spelled);

fn spelled((m, e): Spelled) -> Option<Num> {
    if e == 999 {
        return Some(if m < 0 { Num::NEG_INF } else { Num::POS_INF });
    }
    Num::fin(m, e)
}

fn interval((lo, hi): Ends) -> Option<Interval> {
    Interval::new(spelled(lo)?, spelled(hi)?)
}

fn pair(of: Pairs, z: Interval, x: Interval, y: Interval) -> Option<(Interval, Interval)> {
    match of {
        Pairs::Add => back_add(z, x, y),
        Pairs::Sub => back_sub(z, x, y),
        Pairs::Mul => back_mul(z, x, y),
        Pairs::Div => back_div(z, x, y),
        Pairs::Min => back_min(z, x, y),
        Pairs::Max => back_max(z, x, y),
    }
}

fn single(of: Singles, n: u8, z: Interval, x: Interval) -> Option<Interval> {
    match of {
        Singles::Neg => back_neg(z, x),
        Singles::Abs => back_abs(z, x),
        Singles::Pow => {
            if n > 32 {
                return None;
            }
            back_pow(z, x, n)
        }
    }
}

fn pair_holds(case: &(Pairs, Ends, Ends, Ends, Option<(Ends, Ends)>)) -> Option<bool> {
    let found = pair(
        case.0,
        interval(case.1)?,
        interval(case.2)?,
        interval(case.3)?,
    );
    match case.4 {
        Some((left, right)) => Some(found == Some((interval(left)?, interval(right)?))),
        None => Some(found.is_none()),
    }
}

fn single_holds(case: &(Singles, u8, Ends, Ends, Option<Ends>)) -> Option<bool> {
    let found = single(case.0, case.1, interval(case.2)?, interval(case.3)?);
    match case.4 {
        Some(ends) => Some(found == Some(interval(ends)?)),
        None => Some(found.is_none()),
    }
}

#[test]
fn pair_cases(rt: HostRuntime) {
    for (i, case) in vectors::PAIRS.iter().enumerate() {
        assert_eq!(rt; pair_holds(case), Some(true), "pair {i}");
    }
}

#[test]
fn single_cases(rt: HostRuntime) {
    for (i, case) in vectors::SINGLES.iter().enumerate() {
        assert_eq!(rt; single_holds(case), Some(true), "single {i}");
    }
}

// `back_add` by the end of `z` that is the one of the sum.
fn add_resting(z: Interval, x: Interval, y: Interval) -> Option<(Interval, Interval)> {
    let own = x.add(y);
    if z.lo() == own.lo() {
        back_add_resting(z, x, y, Rest::Lower)
    } else if z.hi() == own.hi() {
        back_add_resting(z, x, y, Rest::Upper)
    } else {
        back_add_resting(z, x, y, Rest::Neither)
    }
}

// `back_sub` by the end of `z` that is the one of the difference.
fn sub_resting(z: Interval, x: Interval, y: Interval) -> Option<(Interval, Interval)> {
    let own = x.sub(y);
    if z.lo() == own.lo() {
        back_sub_resting(z, x, y, Rest::Lower)
    } else if z.hi() == own.hi() {
        back_sub_resting(z, x, y, Rest::Upper)
    } else {
        back_sub_resting(z, x, y, Rest::Neither)
    }
}

// A target for [0, 8] and [1, 9], and what is left of them.
type Target = ((i64, i64), (i64, i64), (i64, i64));

// The lower end rests, the upper one, both, neither.
static SUMS: [Target; 4] = [
    ((1, 3), (0, 2), (1, 3)),
    ((14, 17), (5, 8), (6, 9)),
    ((1, 17), (0, 8), (1, 9)),
    ((2, 4), (0, 3), (1, 4)),
];

static DIFFERENCES: [Target; 4] = [
    ((-9, -6), (0, 3), (6, 9)),
    ((4, 7), (5, 8), (1, 4)),
    ((-9, 7), (0, 8), (1, 9)),
    ((-1, 1), (0, 8), (1, 9)),
];

fn whole((lo, hi): (i64, i64)) -> Option<Interval> {
    interval(((lo, 0), (hi, 0)))
}

fn sum_holds(case: &Target) -> Option<bool> {
    let found = add_resting(whole(case.0)?, whole((0, 8))?, whole((1, 9))?);
    Some(found == Some((whole(case.1)?, whole(case.2)?)))
}

fn difference_holds(case: &Target) -> Option<bool> {
    let found = sub_resting(whole(case.0)?, whole((0, 8))?, whole((1, 9))?);
    Some(found == Some((whole(case.1)?, whole(case.2)?)))
}

#[test]
fn resting_cases(rt: HostRuntime) {
    for (i, case) in SUMS.iter().enumerate() {
        assert_eq!(rt; sum_holds(case), Some(true), "sum {i}");
    }
    for (i, case) in DIFFERENCES.iter().enumerate() {
        assert_eq!(rt; difference_holds(case), Some(true), "difference {i}");
    }
}
