//! What codes, their sizes and their expansion promise.
ghost use Rattle.std.specs.Prelude.{◌≡◌, ◌↔◌, ◌*ℤ◌, ◌≤ℤ◌, pos, All, List, [], IsTrue, IfOk};
ghost use Rattle.pv_expr.specs.Systems.{IsFraction};
ghost use Rattle.pv_expr.specs.Terms.{term_of};
ghost use Rattle.pv_expr.specs.declared.constraint.Relation.{Relation};
ghost use Rattle.pv_code.specs.Expansion.{KeepsBody, Meaning, Stand, body_meaning, part_sides, run, sides_of, top};
ghost use Rattle.pv_code.specs.Fractions.{signed};
ghost use Rattle.pv_code.specs.Sizes.{AreMeasured, IsMeasured, IsRoom, IsShortCall};

use pv_code::{Fraction, Function, Op, constraint, expression, is_quotient_at_most, nodes_with};
use pv_expr::{Constraint, Expr, Relation};
use pv_num::Memory;
use std::alloc::Global;

/// The function of a body, over the functions before it.
pub fn with_body(alloc: Global, functions: &[Function], body: &[Op]) -> Result<Function, Memory>
    requires short { All IsShortCall body.now }
    ensures keeps { IfOk result (λ f. KeepsBody functions.now body.now f) }
    ensures measured { IfOk result (λ f. (ms : List Meaning) → AreMeasured functions.now ms →
        IsMeasured f.measure (body_meaning ms body.now)) }
{
    Function::of(alloc, functions, body)
}

/// The expression of a code that calls no functions.
pub fn without_calls(alloc: Global, code: &[Op]) -> Result<Expr, Memory>
    ensures { IfOk result (λ e. term_of e ≡ top (run [] [] code.now [])) }
{
    expression(alloc, code)
}

/// The constraint of a code that leaves its two sides.
pub fn of_sides(
    alloc: Global,
    functions: &[Function],
    code: &[Op],
    relation: Relation,
) -> Result<Constraint, Memory>
    ensures { IfOk result (λ c. (ms : List Meaning) → Stand functions.now ms → sides_of c ≡
        part_sides ms code.now relation) }
{
    constraint(alloc, functions, code, relation)
}

/// The nodes up to and with a constraint; None where it is too large there.
pub fn nodes_up_to(
    alloc: Global,
    functions: &[Function],
    code: &[Op],
    before: u64,
) -> Result<Option<u64>, Memory>
    requires { All IsShortCall code.now }
    ensures { IfOk result (λ nodes. (ms : List Meaning) → AreMeasured functions.now ms →
        (r : Relation) →
        IsRoom before (part_sides ms code.now r) nodes) }
{
    nodes_with(alloc, functions, code, before)
}

/// A fraction with the sign that stands before it.
pub fn with_sign(value: Fraction, negative: bool) -> Fraction
    requires { IsFraction value.p value.q }
    ensures { result ≡ signed negative value }
{
    value.signed(negative)
}

/// Whether p/q is at most r/s.
pub fn is_at_most(p: i128, q: u128, r: i128, s: u128) -> bool
    ensures { IsTrue result ↔ ((p *ℤ pos s) ≤ℤ (r *ℤ pos q)) }
{
    is_quotient_at_most(p, q, r, s)
}
