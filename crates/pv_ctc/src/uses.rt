//! Which variables a constraint has.

ghost use Rattle.std.specs.Prelude.{◌≡◌, ℕ, ◌<◌, ◌||◌, false, slice_index_or, nat_eq};
ghost use Rattle.pv_expr.specs.Terms.{term_of};
ghost use Rattle.pv_hc4.specs.Graphs.{sides_named};
ghost use Rattle.pv_ctc.specs.Uses.{has_place, AreUses};

use pv_box::MOST_PLACES;
use pv_expr::{Constraint, Expr};

// Whether each variable stands in a constraint.
pub(crate) fn uses_of(constraint: &Constraint) -> [bool; MOST_PLACES]
    ensures { AreUses result (sides_named constraint.now) }
{
    let mut uses = [false; MOST_PLACES];
    mark_both(&constraint.left, &constraint.right, &mut uses);
    uses
}

// Marks the variables of an expression.
#[cycle(marking)]
fn mark(e: &Expr, uses: &mut [bool; MOST_PLACES])
    ensures { (i : ℕ) → i < MOST_PLACES → slice_index_or uses.new i false ≡
        (slice_index_or uses.old i false || has_place i (term_of e.now)) }
{
    match e {
        Expr::Const { .. } => {}
        Expr::Var(i) => mark_one(*i, uses),
        Expr::Add(a, b) => mark_both(a, b, uses),
        Expr::Sub(a, b) => mark_both(a, b, uses),
        Expr::Mul(a, b) => mark_both(a, b, uses),
        Expr::Div(a, b) => mark_both(a, b, uses),
        Expr::Min(a, b) => mark_both(a, b, uses),
        Expr::Max(a, b) => mark_both(a, b, uses),
        Expr::Neg(a) => mark(a, uses),
        Expr::Abs(a) => mark(a, uses),
        Expr::Pow(a, _) => mark(a, uses),
    }
}

#[cycle(marking)]
#[tactic(auto, using(crate::proofs::Locality::or_assoc))]
fn mark_both(a: &Expr, b: &Expr, uses: &mut [bool; MOST_PLACES])
    ensures { (i : ℕ) → i < MOST_PLACES → slice_index_or uses.new i false ≡
        (slice_index_or uses.old i false ||
        (has_place i (term_of a.now) || has_place i (term_of b.now))) }
{
    mark(a, uses);
    mark(b, uses);
}

fn mark_one(var: u8, uses: &mut [bool; MOST_PLACES])
    ensures { (i : ℕ) → i < MOST_PLACES → slice_index_or uses.new i false ≡
        (slice_index_or uses.old i false || nat_eq var i) }
{
    if usize::from(var) < MOST_PLACES {
        uses[usize::from(var)] = true;
    }
}
