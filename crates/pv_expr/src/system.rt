//! A system: names, domains and constraints.

ghost use Rattle.std.specs.Prelude.{◌≡◌, ◌<◌, ◌≤◌, ◌≢◌, length, map, string_bytes, All, AllPairs, sum_by, IfSome, IfNone, ℕ, slice_get};
ghost use Rattle.pv_expr.specs.Searches.{search_bounds, end_of};
ghost use Rattle.pv_expr.specs.Systems.{HasNoName, IsBound, IsDomain, IsConstraint, IsSystem, side_nodes};

use crate::constraint::Constraint;
use crate::domain::{Bound, Domain};
use pv_interval::Interval;
use pv_num::{End, Num};
use std::marker::Model;

/// The most variables of a system.
pub const MOST_VARIABLES: u8 = 12;

/// The most constraints of a system.
pub const MOST_CONSTRAINTS: u32 = 64;

/// The greatest depth of a constraint's side: the nodes on a way down from its root.
pub const MOST_TERM_DEPTH: u64 = 2000;

/// The most nodes that the sides of all constraints have together.
pub const MOST_TERM_NODES: u64 = 65536;

/// A system of constraints: 1 to `MOST_VARIABLES` named variables with a domain each, and 1 to
/// `MOST_CONSTRAINTS` constraints.
#[derive(Drop)]
pub struct System {
    names: Vec<String>,
    domains: Vec<Domain>,
    constraints: Vec<Constraint>,
}

impl Model for System {
    ghost use Rattle.std.specs.Prelude.{map, string_bytes};
    ghost use Rattle.std.specs.Coded.{codes};
    ghost use Rattle.pv_expr.specs.Systems.{Parts, IsSystem};
    ghost use Rattle.pv_expr.specs.contracts.expr.Expr as e;

    ghost Value = { Parts };

    ghost coded = { Prim.hlevel (codes, e.the_row.coded) };

    ghost view = { λ s. record { names = map string_bytes s.names.items; domains = s.domains.items; constraints = s.constraints.items } };

    ghost invariant = { λ s. IsSystem (record { names = map string_bytes s.names.items; domains = s.domains.items; constraints = s.constraints.items }) };
}

impl System {
    /// The system of these variables, domains and constraints.
    pub fn new(names: Vec<String>, domains: Vec<Domain>, constraints: Vec<Constraint>) -> System
        requires some_names { 1 ≤ length names.items }
        requires few_names { length names.items ≤ MOST_VARIABLES }
        requires distinct { AllPairs (λ x y. x ≢ y) (map string_bytes names.items) }
        requires same_length { length domains.items ≡ length names.items }
        requires domains_good { All IsDomain domains.items }
        requires some_constraints { 1 ≤ length constraints.items }
        requires few_constraints { length constraints.items ≤ MOST_CONSTRAINTS }
        requires constraints_good { All (IsConstraint (length names.items)) constraints.items }
        requires few_nodes { sum_by side_nodes constraints.items ≤ MOST_TERM_NODES }
        ensures names { result.names ≡ map string_bytes names.items }
        ensures domains { result.domains ≡ domains.items }
        ensures constraints { result.constraints ≡ constraints.items }
    {
        System {
            names,
            domains,
            constraints,
        }
    }

    /// How many variables there are, from 1 to `MOST_VARIABLES`.
    pub fn variable_count(&self) -> u8
        ensures count { result ≡ length self.now.names }
        ensures limits { IsSystem self.now }
    {
        self.names.len() as u8
    }

    /// How many constraints there are, from 1 to `MOST_CONSTRAINTS`.
    pub fn constraint_count(&self) -> u32
        ensures count { result ≡ length self.now.constraints }
        ensures limits { IsSystem self.now }
    {
        self.constraints.len() as u32
    }

    /// Constraint `i`, counted from 0.
    pub fn constraint(&self, i: u32) -> &Constraint
        requires { i < length self.now.constraints }
        ensures found { slice_get self.now.constraints i ≡ Some result.now }
        ensures limits { IsConstraint (length self.now.names) result.now }
    {
        &self.constraints[i as usize]
    }

    /// The name of variable `i`, counted from 0.
    pub fn name(&self, i: u8) -> &str
        requires { i < length self.now.names }
        ensures { slice_get self.now.names i ≡ Some result.now }
    {
        self.names[i as usize].as_str()
    }

    /// The domain of variable `i`, with the lower bound rounded down and the upper one up.
    pub fn search_interval(&self, i: u8) -> Interval
        requires { i < length self.now.names }
        ensures { slice_get (map search_bounds self.now.domains) i ≡ Some result }
    {
        interval_of(self.domains[i as usize])
    }

    /// The number of the variable of this name, or None where no variable has it.
    pub fn find(&self, name: &str) -> Option<u8>
        ensures found { IfSome result (λ i. slice_get self.now.names i ≡ Some name.now) }
        ensures absent { IfNone result (HasNoName name.now self.now.names) }
    {
        for i in 0..self.variable_count() {
            if self.name(i) == name {
                return Some(i);
            }
        }
        None
    }
}

// A domain with its bounds rounded outward.
fn interval_of(domain: Domain) -> Interval
    requires { IsDomain domain }
    ensures { result ≡ search_bounds domain }
{
    Interval::new(end_of(domain.lo, End::Down), end_of(domain.hi, End::Up)).unwrap()
}

fn end_of(bound: Bound, side: End) -> Num
    requires { IsBound bound }
    ensures { result ≡ end_of side bound }
{
    match bound {
        Bound::MinusOo => Num::NEG_INF,
        Bound::Value { p, q } => Num::from_ratio(p, q, side),
        Bound::PlusOo => Num::POS_INF,
    }
}
