//! What the tables of worked revisions and contractions share: ends as they are written there, and
//! the box of a system's domains.
#![tactic(auto)]

ghost use Rattle.std.specs.Prelude.{◌≡◌, IfOk, length, map};
ghost use Rattle.pv_expr.specs.Searches.{search_bounds};

use pv_box::IBox;
use pv_expr::System;
use pv_interval::Interval;
use pv_num::{Memory, Num};
use std::alloc::Global;

/// A mantissa and an exponent; the exponent 999 stands for an infinite end.
pub type Spelled = (i64, i16);

/// The lower and the upper end of an interval.
pub type Ends = (Spelled, Spelled);

fn number((mantissa, exponent): Spelled) -> Option<Num> {
    if exponent == 999 {
        return Some(if mantissa < 0 {
            Num::NEG_INF
        } else {
            Num::POS_INF
        });
    }
    Num::fin(mantissa, exponent)
}

fn interval((lo, hi): Ends) -> Option<Interval> {
    Interval::new(number(lo)?, number(hi)?)
}

/// The box of a system's domains, each rounded outward.
pub fn domains(alloc: Global, system: &System) -> Result<IBox, Memory>
    ensures dims { IfOk result (λ b. length b ≡ length system.now.names) }
    ensures intervals { IfOk result (λ b. b ≡ map search_bounds system.now.domains) }
{
    let mut parts = Vec::new(alloc);
    for i in 0..system.variable_count() {
        parts.push(system.search_interval(i))?;
    }
    Ok(IBox::new(parts))
}

/// Whether a box of two places has these ends; None if they are no intervals or the box has other
/// places.
pub fn is_left(bx: &IBox, x: Ends, y: Ends) -> Option<bool> {
    if bx.dims() != 2 {
        return None;
    }
    Some(bx.get(0) == interval(x)? && bx.get(1) == interval(y)?)
}
