// The variables of a text, with their domains.

ghost use Rattle.std.specs.Bool.{OnTrue, OnFalse};
ghost use Rattle.std.specs.Prelude.{◌≡◌, map, IfOk, IfSome, IsNone, string_bytes};
ghost use Rattle.pv_expr.specs.Systems.{InOrder};
ghost use Rattle.pv_code.specs.Fractions.{IsLowest, signed};
ghost use Rattle.pv_grammar.specs.Trees.{infinite, value_of};
ghost use Rattle.pv_parse.specs.Declarations.{AreGood, IsFirstBad};
ghost use Rattle.pv_parse.specs.Scopes.{bracket_in, declared, domain_in, name_of, with_bound, with_bracket, with_last};

use pv_code::{Fraction, is_quotient_at_most};
use pv_expr::{Bound, Domain};
use pv_num::Memory;
use std::alloc::Global;

/// A variable, with what is written after its name so far.
#[derive(Drop)]
pub(crate) struct Variable {
    pub name: String,
    pub domain: Domain,
    /// Where the bracket of the domain opens, or 0 where there is none.
    pub bracket: usize,
}

/// The domain of the last variable opens at a place.
pub(crate) fn open(variables: &mut Vec<Variable>, start: usize)
    ensures { map declared variables.new.items ≡
        with_last (with_bracket start) (map declared variables.old.items) }
{
    if let Some(last) = variables.last_mut() {
        last.bracket = start;
    }
}

/// The domain of the last variable has one bound more. The lower one comes first: the upper one
/// moves it on to its place.
pub(crate) fn bound(variables: &mut Vec<Variable>, bound: Bound)
    ensures { map declared variables.new.items ≡
        with_last (with_bound bound) (map declared variables.old.items) }
{
    if let Some(last) = variables.last_mut() {
        last.domain.lo = last.domain.hi;
        last.domain.hi = bound;
    }
}

/// The bound that a number is, where `-` stands before it or doesn't.
pub(crate) fn value_of(value: Fraction, negative: bool) -> Bound
    requires { IsLowest value }
    ensures { result ≡ value_of (signed negative value) }
{
    let Fraction { p, q } = value.signed(negative);
    Bound::Value { p, q }
}

/// The bound that `oo` is.
pub(crate) fn infinite(negative: bool) -> Bound
    ensures { result ≡ infinite negative }
{
    if negative {
        Bound::MinusOo
    } else {
        Bound::PlusOo
    }
}

/// The bracket of the first domain that is bad.
pub(crate) fn first_bad(variables: &[Variable]) -> Option<usize>
    ensures some { IfSome result (λ byte. IsFirstBad (map domain_in (map declared variables.now))
        (map bracket_in (map declared variables.now)) byte) }
    ensures none { IsNone result → AreGood (map domain_in (map declared variables.now)) }
{
    let (one, more) = variables.split_first()?;
    if in_order(one.domain) {
        first_bad(more)
    } else {
        Some(one.bracket)
    }
}

// Whether the lower bound is not +oo, the upper one not -oo, and they are in order as exact
// numbers.
fn in_order(domain: Domain) -> bool
    ensures yes { OnTrue result (InOrder domain.lo domain.hi) }
    ensures no { OnFalse result (¬ InOrder domain.lo domain.hi) }
{
    match (domain.lo, domain.hi) {
        (Bound::PlusOo, _) | (_, Bound::MinusOo) => false,
        (Bound::Value { p, q }, Bound::Value { p: r, q: s }) => is_quotient_at_most(p, q, r, s),
        _ => true,
    }
}

/// The names alone, and the domains alone.
pub(crate) fn names_and_domains(
    alloc: Global,
    variables: Vec<Variable>,
) -> Result<(Vec<String>, Vec<Domain>), Memory>
    ensures names { IfOk result (λ (names, domains). map string_bytes names.items ≡
        map name_of (map declared variables.items)) }
    ensures domains { IfOk result (λ (names, domains). domains.items ≡
        map domain_in (map declared variables.items)) }
{
    let mut names = Vec::new(alloc);
    let mut domains = Vec::new(alloc);
    for one in variables {
        domains.push(one.domain)?;
        names.push(one.name)?;
    }
    Ok((names, domains))
}
