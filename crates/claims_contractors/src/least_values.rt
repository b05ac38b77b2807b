//! What the search for a least value promises.
ghost use Rattle.std.specs.Prelude.{◌≡◌, ◌↔◌, ◌<◌, ◌≤◌, IsTrue, length, slice_index_or, IfOk, IfSome, None};
ghost use Rattle.pv_expr.specs.Terms.{term_of};
ghost use Rattle.pv_expr.specs.Systems.{IsOver};
ghost use Rattle.pv_tree.specs.Trees.{counts_of, settled_of};
ghost use Rattle.pv_tree.specs.declared.limit.TheConstants.{MOST_SETTLED};
ghost use Rattle.pv_least.specs.Objectives.{aim_of};
ghost use Rattle.pv_least.specs.Promises.{NoneIsBelow, IsWitness};
ghost use Rattle.pv_least.specs.Searches.{searched, lower_of, best_of, next_of};

use pv_box::IBox;
use pv_expr::Expr;
use pv_least::{Least, Objective, Point, least};
use pv_num::{Memory, Num};
use pv_tree::Settler;
use std::alloc::Global;

/// The objective of an expression over `dims` variables.
pub fn objective(alloc: Global, expr: &Expr, dims: u8) -> Result<Objective, Memory>
    requires { IsOver dims (term_of expr.now) }
    ensures aim { IfOk result (λ o. aim_of o ≡ term_of expr.now) }
{
    Objective::of(alloc, expr, dims)
}

/// What is found by so many settled boxes.
pub fn found<S: Settler>(
    alloc: Global,
    settler: &S,
    objective: &Objective,
    root: &IBox,
    budget: u64,
) -> Result<Least, Memory>
    requires settler_dims { length root.now ≡ S.dims settler.now }
    requires objective_dims { length root.now ≡ objective.now.dims }
    requires budget_some { 1 ≤ budget }
    requires budget_few { budget ≤ MOST_SETTLED }
    ensures lower { IfOk result (λ l. l.lower ≡ lower_of (aim_of objective.now) root.now
        (searched (S.settle_of settler.now) (S.depth_of settler.now)
        (aim_of objective.now) root.now budget)) }
    ensures best { IfOk result (λ l. l.best ≡ best_of (aim_of objective.now) root.now
        (searched (S.settle_of settler.now) (S.depth_of settler.now)
        (aim_of objective.now) root.now budget)) }
    ensures settled { IfOk result (λ l. l.settled ≡ settled_of (counts_of
        (searched (S.settle_of settler.now) (S.depth_of settler.now)
        (aim_of objective.now) root.now budget))) }
    ensures done { IfOk result (λ l. IsTrue l.done ↔ (next_of (aim_of objective.now) root.now
        (searched (S.settle_of settler.now) (S.depth_of settler.now)
        (aim_of objective.now) root.now budget) ≡ None)) }
{
    least(alloc, settler, objective, root, budget)
}

/// No member of a box has a value below the bound, and the best point is a member.
pub fn promised<S: Settler>(
    alloc: Global,
    settler: &S,
    objective: &Objective,
    whole: &IBox,
    budget: u64,
) -> Result<Least, Memory>
    requires settler_dims { length whole.now ≡ S.dims settler.now }
    requires objective_dims { length whole.now ≡ objective.now.dims }
    requires budget_some { 1 ≤ budget }
    requires budget_few { budget ≤ MOST_SETTLED }
    ensures none_below { IfOk result (λ l.
        NoneIsBelow (S.inside settler.now) (aim_of objective.now) whole.now l.lower) }
    ensures witness { IfOk result (λ l. IfSome l.best
        (IsWitness (S.inside settler.now) (aim_of objective.now) whole.now)) }
{
    least(alloc, settler, objective, whole, budget)
}

/// The number of a point at a place.
pub fn number(point: &Point, i: u8) -> Num
    requires { i < length point.now }
    ensures { result ≡ slice_index_or point.now i result }
{
    point.get(i)
}
