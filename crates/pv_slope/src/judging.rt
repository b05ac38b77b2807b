//! What the centered form of a constraint says of its points in a box.

ghost use Rattle.std.specs.Prelude.{◌≡◌, ◌&&◌, length, IfOk};
ghost use Rattle.pv_hc4.specs.Totality.{total_of};
ghost use Rattle.pv_slope.specs.Centered.{centered_of, has_finite_ends};
ghost use Rattle.pv_slope.specs.Flat.{term_in};
ghost use Rattle.pv_slope.specs.Tests.{none_stands as none_stands_so, all_stand as all_stand_so, none_in, all_in};

use crate::columns::Columns;
use crate::slopes::Slopes;
use pv_box::IBox;
use pv_expr::Relation;
use pv_interval::Interval;
use pv_num::{Memory, Num};

// Whether a constraint holds at no point of a box, or at each.
#[derive(Clone, Copy, Debug)]
pub(crate) struct Verdict {
    pub(crate) none: bool,
    pub(crate) sure: bool,
}

// No number of the interval stands so to 0.
fn none_stands(relation: Relation, x: Interval) -> bool
    ensures { result ≡ none_stands_so relation x }
{
    match relation {
        Relation::Eq => !x.contains(Num::ZERO),
        Relation::Le => Num::ZERO < x.lo(),
        Relation::Lt => Num::ZERO <= x.lo(),
        Relation::Ge => x.hi() < Num::ZERO,
        Relation::Gt => x.hi() <= Num::ZERO,
    }
}

// Every number of the interval stands so to 0.
fn all_stand(relation: Relation, x: Interval) -> bool
    ensures { result ≡ all_stand_so relation x }
{
    match relation {
        Relation::Eq => x.lo() == Num::ZERO && x.hi() == Num::ZERO,
        Relation::Le => x.hi() <= Num::ZERO,
        Relation::Lt => x.hi() < Num::ZERO,
        Relation::Ge => Num::ZERO <= x.lo(),
        Relation::Gt => Num::ZERO < x.lo(),
    }
}

fn both(a: bool, b: bool) -> bool
    ensures { result ≡ (a && b) }
{
    a && b
}

impl Slopes {
    // What the centered form says of the constraint on a box; `finite` says that no end of it is
    // infinite.
    pub(crate) fn judge_in(
        &self,
        columns: &mut Columns,
        bx: &IBox,
        finite: bool,
    ) -> Result<Verdict, Memory>
        requires dims { length bx.now ≡ self.now.dims }
        requires finite { finite ≡ has_finite_ends bx.now }
        ensures none { IfOk result (λ v. v.none ≡
            none_in self.now.relation (centered_of bx.now (term_in self.now))) }
        ensures sure { IfOk result (λ v. v.sure ≡
            (total_of bx.now (term_in self.now) &&
            all_in self.now.relation (centered_of bx.now (term_in self.now)))) }
    {
        match self.range_in(columns, bx, finite)? {
            Some(found) => Ok(Verdict {
                none: none_stands(self.relation, found.interval),
                sure: both(found.total, all_stand(self.relation, found.interval)),
            }),
            None => Ok(Verdict {
                none: true,
                sure: false,
            }),
        }
    }
}
