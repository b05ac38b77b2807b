//! The slopes of a constraint.

ghost use Rattle.std.specs.Prelude.{◌≡◌, ◌↔◌, ◌≤◌, length, IfOk, OnOk, None};
ghost use Rattle.pv_expr.specs.Systems.{IsOver};
ghost use Rattle.pv_expr.specs.Terms.{term_of};
ghost use Rattle.pv_hc4.specs.Forward.{forward_of};
ghost use Rattle.pv_hc4.specs.Graphs.{sides_named, AreValues, AreReady};
ghost use Rattle.pv_hc4.specs.Nodes.{terms, term_at};
ghost use Rattle.pv_hc4.specs.Chain.{at};
ghost use Rattle.pv_hc4.specs.Totality.{total_of};
ghost use Rattle.pv_slope.specs.Centered.{centered_of, centered_from, slope_where, gap_of, has_finite_ends as have_finite_ends, Encloses};
ghost use Rattle.pv_slope.specs.Flat.{term_in, IsFlat};
ghost use Rattle.pv_slope.specs.Ranges.{ranged_of};

use crate::centre::{centre_all, has_finite_ends};
use crate::columns::Columns;
use crate::passes::{Tables, factor_all, linear, seen_slope, slope_all};
use pv_box::IBox;
use pv_expr::{BinaryOp, Constraint, Relation};
use pv_hc4::builder::Builder;
use pv_hc4::forward::forward_all;
use pv_hc4::total::is_total;
use pv_hc4::{Node, fill};
use pv_interval::Interval;
use pv_num::Memory;
use std::alloc::Global;
use std::marker::Model;

/// The expression left - right of a constraint's two sides, and the slopes of its parts.
#[derive(Drop)]
pub struct Slopes {
    nodes: Vec<Node>,
    ready: Vec<Interval>,
    root: usize,
    pub(crate) relation: Relation,
    dims: u8,
}

impl Model for Slopes {
    ghost use Rattle.pv_hc4.specs.Graphs.{AreReady};
    ghost use Rattle.pv_slope.specs.Flat.{Parts, IsFlat};

    ghost Value = { Parts };

    ghost view = { λ s. record { nodes = s.nodes.items; root = s.root; relation = s.relation; dims = s.dims } };

    ghost invariant = { λ s. IsFlat s.nodes.items s.root s.dims × AreReady s.nodes.items s.ready.items };
}

/// An expression's interval on a box.
#[derive(Clone, Copy, Debug)]
pub(crate) struct Ranged {
    pub(crate) interval: Interval,
    /// No divisor's interval contains 0.
    pub(crate) total: bool,
}

impl Slopes {
    /// The slopes of a constraint over `dims` variables.
    pub fn of(alloc: Global, constraint: &Constraint, dims: u8) -> Result<Slopes, Memory>
        requires left { IsOver dims (term_of constraint.now.left) }
        requires right { IsOver dims (term_of constraint.now.right) }
        ensures term { IfOk result (λ s. term_in s ≡ gap_of (sides_named constraint.now)) }
        ensures relation { IfOk result (λ s. s.relation ≡ constraint.now.relation) }
        ensures dims { IfOk result (λ s. s.dims ≡ dims) }
    {
        let mut builder = Builder::new(alloc);
        let root = builder.add_two(BinaryOp::Sub, &constraint.left, &constraint.right, dims)?;
        let Builder { nodes, ready, .. } = builder;
        Ok(Slopes {
            nodes,
            ready,
            root,
            relation: constraint.relation,
            dims,
        })
    }

    /// The centered form on a box of the left side minus the right side: an interval in which its
    /// value lies at each rational point of the box where it is defined. It is the forward interval
    /// alone where an end of the box is infinite or a divisor's interval contains 0. None where a
    /// divisor's interval is [0,0].
    pub fn range(&self, alloc: Global, bx: &IBox) -> Result<Option<Interval>, Memory>
        requires { length bx.now ≡ self.now.dims }
        ensures value { IfOk result (λ r. r ≡ centered_of bx.now (term_in self.now)) }
        ensures encloses { IfOk result (λ r. Encloses (term_in self.now) bx.now r) }
        ensures none { IfOk result (λ r. (r ≡ None) ↔
            (forward_of bx.now (term_in self.now) ≡ None)) }
    {
        self.learn();
        let _dims = bx.dims();
        let found = self.range_in(&mut Columns::new(alloc), bx, has_finite_ends(bx))?;
        match found {
            Some(ranged) => Ok(Some(ranged.interval)),
            None => Ok(None),
        }
    }

    /// The slope on a box of the left side minus the right side for variable `i`. From the box's
    /// centre to any of its points the difference changes by a number of each slope times the
    /// change of its variable, summed. None where an end of the box is infinite or a divisor's
    /// interval contains 0.
    pub fn slope(&self, alloc: Global, bx: &IBox, i: u8) -> Result<Option<Interval>, Memory>
        requires { length bx.now ≡ self.now.dims }
        ensures { IfOk result (λ s. s ≡ slope_where bx.now i (term_in self.now)) }
    {
        let mut columns = Columns::new(alloc);
        fill_columns(&mut columns, &self.ready)?;
        Ok(slope_at(
            &self.nodes,
            self.root,
            bx,
            i,
            &mut columns.values,
            &mut columns.centres,
            &mut columns.factors,
            &mut columns.moving,
            &mut columns.slopes,
        ))
    }

    // The expression is over the constraint's variables. It holds by its contract alone; the call
    // does nothing.
    fn learn(&self)
        ensures { IsOver self.now.dims (term_in self.now) }
    {
        let _ = &self.nodes;
    }

    // As `range`, with room that is kept; `finite` says that no end of the box is infinite.
    pub(crate) fn range_in(
        &self,
        columns: &mut Columns,
        bx: &IBox,
        finite: bool,
    ) -> Result<Option<Ranged>, Memory>
        requires dims { length bx.now ≡ self.now.dims }
        requires finite { finite ≡ have_finite_ends bx.now }
        ensures { IfOk result (λ r. r ≡ ranged_of bx.now (term_in self.now)) }
    {
        fill_columns(columns, &self.ready)?;
        Ok(range_of(
            &self.nodes,
            self.root,
            bx,
            finite,
            &mut columns.values,
            &mut columns.centres,
            &mut columns.factors,
            &mut columns.moving,
            &mut columns.slopes,
        ))
    }
}

// Gives the first column the constants' intervals, and the others a place for each node.
fn fill_columns(columns: &mut Columns, ready: &[Interval]) -> Result<(), Memory>
    ensures values { OnOk result (columns.new.values.items ≡ ready.now) }
    ensures centres { OnOk result (length ready.now ≤ length columns.new.centres.items) }
    ensures factors { OnOk result (length ready.now ≤ length columns.new.factors.items) }
    ensures moving { OnOk result (length ready.now ≤ length columns.new.moving.items) }
    ensures slopes { OnOk result (length ready.now ≤ length columns.new.slopes.items) }
{
    fill(&mut columns.values, ready)?;
    lengthen(&mut columns.centres, ready.len())?;
    lengthen(&mut columns.factors, ready.len())?;
    lengthen_flags(&mut columns.moving, ready.len())?;
    lengthen(&mut columns.slopes, ready.len())
}

// Makes room for so many intervals, whatever they are.
fn lengthen(column: &mut Vec<Interval>, count: usize) -> Result<(), Memory>
    ensures { OnOk result (count ≤ length column.new.items) }
{
    for _ in column.len()..count {
        column.push(Interval::ALL)?;
    }
    Ok(())
}

// The same for flags.
fn lengthen_flags(column: &mut Vec<bool>, count: usize) -> Result<(), Memory>
    ensures { OnOk result (count ≤ length column.new.items) }
{
    for _ in column.len()..count {
        column.push(false)?;
    }
    Ok(())
}

// Whether no divisor's interval contains 0 in the expression of node `root`.
fn root_is_total(nodes: &[Node], root: usize, values: &[Interval], bx: &IBox) -> bool
    requires flat { IsFlat nodes.now root (length bx.now) }
    requires valued { AreValues bx.now nodes.now values.now }
    ensures { result ≡ total_of bx.now (term_at (terms nodes.now) root) }
{
    is_total(nodes, values, bx)
}

// The centered form of node `root` from its forward interval. At the entry the columns have a
// place for each node.
#[tactic(auto, using(crate::proofs::Still::all_total))]
fn centered(
    nodes: &[Node],
    root: usize,
    bx: &IBox,
    finite: bool,
    total: bool,
    values: &[Interval],
    centres: &mut [Interval],
    factors: &mut [Interval],
    moving: &mut [bool],
    slopes: &mut [Interval],
) -> Option<Interval>
    requires flat { IsFlat nodes.now root (length bx.now) }
    requires finite { finite ≡ have_finite_ends bx.now }
    requires total { total ≡ total_of bx.now (term_at (terms nodes.now) root) }
    requires valued { AreValues bx.now nodes.now values.now }
    requires centres { length nodes.now ≤ length centres.old }
    requires factors { length nodes.now ≤ length factors.old }
    requires moving { length nodes.now ≤ length moving.old }
    requires slopes { length nodes.now ≤ length slopes.old }
    ensures { result ≡ centered_from bx.now (term_at (terms nodes.now) root)
        (at values.now root) }
{
    let whole = values[root];
    if !finite {
        return Some(whole);
    }
    if !total {
        return Some(whole);
    }
    centre_all(nodes, bx, values, centres);
    factor_all(nodes, bx.dims(), values, centres, factors);
    let on = Tables {
        nodes,
        bx,
        values,
        centres,
        factors,
    };
    whole.meet(linear(&on, root, moving, slopes))
}

// The range of node `root` on a box. At the entry the first column has the constants' intervals, and
// the others a place for each node.
fn range_of(
    nodes: &[Node],
    root: usize,
    bx: &IBox,
    finite: bool,
    values: &mut [Interval],
    centres: &mut [Interval],
    factors: &mut [Interval],
    moving: &mut [bool],
    slopes: &mut [Interval],
) -> Option<Ranged>
    requires finite { finite ≡ have_finite_ends bx.now }
    requires flat { IsFlat nodes.now root (length bx.now) }
    requires values { AreReady nodes.now values.old }
    requires centres { length nodes.now ≤ length centres.old }
    requires factors { length nodes.now ≤ length factors.old }
    requires moving { length nodes.now ≤ length moving.old }
    requires slopes { length nodes.now ≤ length slopes.old }
    ensures { result ≡ ranged_of bx.now (term_at (terms nodes.now) root) }
{
    if !forward_all(nodes, bx, values) {
        return None;
    }
    let total = root_is_total(nodes, root, values, bx);
    match centered(
        nodes, root, bx, finite, total, values, centres, factors, moving, slopes,
    ) {
        Some(interval) => Some(Ranged { interval, total }),
        None => None,
    }
}

// The slope of node `root` for variable `i`. At the entry the first column has the constants'
// intervals, and the others a place for each node.
#[tactic(auto, using(crate::proofs::Still::all_total))]
fn slope_at(
    nodes: &[Node],
    root: usize,
    bx: &IBox,
    i: u8,
    values: &mut [Interval],
    centres: &mut [Interval],
    factors: &mut [Interval],
    moving: &mut [bool],
    slopes: &mut [Interval],
) -> Option<Interval>
    requires flat { IsFlat nodes.now root (length bx.now) }
    requires values { AreReady nodes.now values.old }
    requires centres { length nodes.now ≤ length centres.old }
    requires factors { length nodes.now ≤ length factors.old }
    requires moving { length nodes.now ≤ length moving.old }
    requires slopes { length nodes.now ≤ length slopes.old }
    ensures { result ≡ slope_where bx.now i (term_at (terms nodes.now) root) }
{
    if !forward_all(nodes, bx, values) {
        return None;
    }
    if !has_finite_ends(bx) {
        return None;
    }
    if !root_is_total(nodes, root, values, bx) {
        return None;
    }
    centre_all(nodes, bx, values, centres);
    factor_all(nodes, bx.dims(), values, centres, factors);
    let on = Tables {
        nodes,
        bx,
        values,
        centres,
        factors,
    };
    slope_all(&on, i, moving, slopes);
    Some(seen_slope(moving[root], slopes[root]))
}
