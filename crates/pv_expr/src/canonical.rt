//! The canonical text of a system, by which systems are told apart.

ghost use Rattle.std.specs.Prelude.{◌≡◌, ◌<◌, ◌++◌, length, map, decimal, codes, OnOk, IfOk, Some, slice_get};
ghost use Rattle.std.specs.Fmt.{signed_decimal};
ghost use Rattle.pv_expr.specs.Terms.{term_of, constant};
ghost use Rattle.pv_expr.specs.Searches.{search_bounds};
ghost use Rattle.pv_expr.specs.Canonical.{relation_text, term_text, constraint_text, count_text, fraction_text, system_variables, system_constraints, canonical_text, term_head, WritesVariable};

use crate::constraint::{Constraint, Relation};
use crate::expr::Expr;
use crate::system::System;
use crate::text::{put, put_number};
use itoa::Buffer;
use pv_num::Memory;
use std::alloc::Global;

impl System {
    /// The canonical text: the variables with the ends of their search intervals, and the
    /// constraints, a line each.
    pub fn canonical_text(&self, alloc: Global) -> Result<Vec<u8>, Memory>
        ensures { IfOk result (λ text. text.items ≡ canonical_text self.now) }
    {
        let mut out = Vec::new(alloc);
        write_count(&mut out, b"vars ", self.variable_count() as u64)?;
        write_variables(&mut out, self)?;
        write_count(&mut out, b"ctrs ", self.constraint_count() as u64)?;
        write_constraints(&mut out, self)?;
        Ok(out)
    }
}

fn write_count(out: &mut Vec<u8>, word: &[u8], count: u64) -> Result<(), Memory>
    ensures { OnOk result (out.new.items ≡ out.old.items ++ count_text word.now count) }
{
    put(out, word)?;
    put_number(out, count)?;
    put(out, b"\n")
}

fn write_variables(out: &mut Vec<u8>, system: &System) -> Result<(), Memory>
    ensures { OnOk result (out.new.items ≡ out.old.items ++ system_variables system.now) }
{
    for i in 0..system.variable_count() {
        write_variable(out, system, i)?;
    }
    Ok(())
}

fn write_variable(out: &mut Vec<u8>, system: &System, i: u8) -> Result<(), Memory>
    requires { i < length system.now.names }
    ensures { OnOk result (WritesVariable system.now i out.old.items out.new.items) }
{
    let interval = system.search_interval(i);
    put(out, system.name(i).as_bytes())?;
    put(out, b" ")?;
    interval.lo().write_text(out)?;
    put(out, b" ")?;
    interval.hi().write_text(out)?;
    put(out, b"\n")
}

fn write_constraints(out: &mut Vec<u8>, system: &System) -> Result<(), Memory>
    ensures { OnOk result (out.new.items ≡ out.old.items ++ system_constraints system.now) }
{
    for i in 0..system.constraint_count() {
        write_constraint(out, system.constraint(i))?;
    }
    Ok(())
}

fn write_constraint(out: &mut Vec<u8>, constraint: &Constraint) -> Result<(), Memory>
    ensures { OnOk result (out.new.items ≡ out.old.items ++ constraint_text constraint.now) }
{
    put(out, relation_text(constraint.relation))?;
    put(out, b" ")?;
    write_expr(out, &constraint.left)?;
    put(out, b" ")?;
    write_expr(out, &constraint.right)?;
    put(out, b"\n")
}

fn relation_text(relation: Relation) -> &'static [u8]
    ensures { result.now ≡ relation_text relation }
{
    match relation {
        Relation::Eq => b"=",
        Relation::Le => b"<=",
        Relation::Ge => b">=",
        Relation::Lt => b"<",
        Relation::Gt => b">",
    }
}

fn write_expr(out: &mut Vec<u8>, e: &Expr) -> Result<(), Memory>
    ensures { OnOk result (out.new.items ≡ out.old.items ++ term_text (term_of e.now)) }
{
    match e {
        Expr::Const { p, q } => write_fraction(out, *p, *q),
        Expr::Var(i) => write_place(out, *i),
        Expr::Add(a, b)
        | Expr::Sub(a, b)
        | Expr::Mul(a, b)
        | Expr::Div(a, b)
        | Expr::Min(a, b)
        | Expr::Max(a, b) => {
            put(out, head_of(e))?;
            write_expr(out, a)?;
            put(out, b" ")?;
            write_expr(out, b)?;
            put(out, b")")
        }
        Expr::Neg(a) | Expr::Abs(a) => {
            put(out, head_of(e))?;
            write_expr(out, a)?;
            put(out, b")")
        }
        Expr::Pow(a, n) => {
            put(out, head_of(e))?;
            write_expr(out, a)?;
            put(out, b" ")?;
            put_number(out, *n as u64)?;
            put(out, b")")
        }
    }
}

// How the text of an operation begins.
fn head_of(e: &Expr) -> &'static [u8]
    ensures { result.now ≡ term_head (term_of e.now) }
{
    match e {
        Expr::Const { .. } | Expr::Var(_) => b"",
        Expr::Add(_, _) => b"(+ ",
        Expr::Sub(_, _) => b"(- ",
        Expr::Mul(_, _) => b"(* ",
        Expr::Div(_, _) => b"(/ ",
        Expr::Min(_, _) => b"(min ",
        Expr::Max(_, _) => b"(max ",
        Expr::Neg(_) => b"(neg ",
        Expr::Abs(_) => b"(abs ",
        Expr::Pow(_, _) => b"(^ ",
    }
}

fn write_fraction(out: &mut Vec<u8>, p: i128, q: u128) -> Result<(), Memory>
    ensures { OnOk result (out.new.items ≡ out.old.items ++ fraction_text p q) }
{
    let mut digits = Buffer::new();
    put(out, digits.format(p).as_bytes())?;
    put(out, b"/")?;
    put(out, digits.format(q).as_bytes())
}

fn write_place(out: &mut Vec<u8>, i: u8) -> Result<(), Memory>
    ensures { OnOk result (out.new.items ≡ out.old.items ++ (codes "v" ++ decimal i)) }
{
    put(out, b"v")?;
    put_number(out, i as u64)
}
