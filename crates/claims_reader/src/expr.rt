//! What expressions, systems and their texts promise.
ghost use Rattle.std.specs.Prelude.{◌≡◌, ◌<◌, ◌++◌, length, map, slice_get, Some, IfOk, IfSome, IfNone, OnOk};
ghost use Rattle.pv_expr.specs.Canonical.{canonical_text};
ghost use Rattle.pv_expr.specs.Searches.{search_bounds};
ghost use Rattle.pv_expr.specs.Systems.{HasNoName};
ghost use Rattle.pv_expr.specs.Terms.{term_of};

use pv_expr::text::put;
use pv_expr::{Constraint, Expr, System};
use pv_interval::Interval;
use pv_num::Memory;
use std::alloc::Global;

/// An equal expression.
pub fn copy(alloc: Global, expr: &Expr) -> Result<Expr, Memory>
    ensures { IfOk result (λ e. term_of e ≡ term_of expr.now) }
{
    expr.clone_of(alloc)
}

/// How many constraints there are.
pub fn constraints_in(system: &System) -> u32
    ensures { result ≡ length system.now.constraints }
{
    system.constraint_count()
}

/// The constraint of a number.
pub fn constraint_at(system: &System, i: u32) -> &Constraint
    requires { i < length system.now.constraints }
    ensures { slice_get system.now.constraints i ≡ Some result.now }
{
    system.constraint(i)
}

/// The interval in which a search for a variable begins.
pub fn search_from(system: &System, i: u8) -> Interval
    requires { i < length system.now.names }
    ensures { slice_get (map search_bounds system.now.domains) i ≡ Some result }
{
    system.search_interval(i)
}

/// The number of the variable of a name; None where no variable has it.
pub fn number_of(system: &System, name: &str) -> Option<u8>
    ensures found { IfSome result (λ i. slice_get system.now.names i ≡ Some name.now) }
    ensures absent { IfNone result (HasNoName name.now system.now.names) }
{
    system.find(name)
}

/// The text by which systems are told apart.
pub fn canonical(alloc: Global, system: &System) -> Result<Vec<u8>, Memory>
    ensures { IfOk result (λ text. text.items ≡ canonical_text system.now) }
{
    system.canonical_text(alloc)
}

/// Appends bytes.
pub fn append(out: &mut Vec<u8>, bytes: &[u8]) -> Result<(), Memory>
    ensures { OnOk result (out.new.items ≡ out.old.items ++ bytes.now) }
{
    put(out, bytes)
}
