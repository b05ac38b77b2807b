//! The graph of a constraint.

ghost use Rattle.std.specs.Prelude.{◌≡◌, ℕ, ◌+◌, ◌<◌, ◌≤◌, length, IsTrue, IfOk, OnOk, OnErr, IsOk, MatchResult, Some};
ghost use Rattle.pv_expr.specs.Terms.{term_of};
ghost use Rattle.pv_expr.specs.Systems.{IsOver};
ghost use Rattle.pv_hc4.specs.Revise.{revised};
ghost use Rattle.pv_hc4.specs.Graphs.{sides_of, sides_named, IsAnswer, IsGraph, AreReady};
ghost use Rattle.pv_hc4.specs.Totality.{forward_sides, sure_of};
ghost use Rattle.pv_hc4.specs.Numbers.{CountsParts};
ghost use Rattle.pv_hc4.specs.Members.{AreOver, AreWithin, HoldsOn, LosesNoPoint};

use crate::builder::Builder;
use crate::forward::forward_all;
use crate::node::Node;
use crate::revised::Revised;
use crate::steps::Steps;
use crate::total::{decides, is_total};
use pv_box::{IBox, MOST_PLACES};
use pv_expr::{Constraint, Relation};
use pv_interval::Interval;
use pv_num::Memory;
use std::alloc::Global;
use std::marker::Model;
use std::sync::ledger::Ledger;

/// The intervals of a constraint's two sides on a box.
#[derive(Clone, Copy, Debug)]
pub struct Forward {
    pub left: Interval,
    pub right: Interval,
    /// No divisor's interval contains 0.
    pub total: bool,
}

/// A constraint as a list of nodes in which no two are equal expressions.
#[derive(Drop)]
pub struct Graph {
    pub(crate) nodes: Vec<Node>,
    pub(crate) ready: Vec<Interval>,
    pub(crate) left: usize,
    pub(crate) relation: Relation,
    pub(crate) right: usize,
    dims: u8,
}

impl Model for Graph {
    ghost use Rattle.pv_hc4.specs.Graphs.{Parts, IsGraph, AreReady};

    ghost Value = { Parts };

    ghost view = { λ g. record { nodes = g.nodes.items; left = g.left; relation = g.relation; right = g.right; dims = g.dims } };

    ghost invariant = { λ g. IsGraph (record { nodes = g.nodes.items; left = g.left; relation = g.relation; right = g.right; dims = g.dims }) × AreReady g.nodes.items g.ready.items };
}

impl Graph {
    /// The graph of a constraint over `dims` variables.
    pub fn of(alloc: Global, constraint: &Constraint, dims: u8) -> Result<Graph, Memory>
        requires left { IsOver dims (term_of constraint.now.left) }
        requires right { IsOver dims (term_of constraint.now.right) }
        ensures sides { IfOk result (λ g. sides_of g ≡ sides_named constraint.now) }
        ensures dims { IfOk result (λ g. g.dims ≡ dims) }
        ensures over { IfOk result (λ g. AreOver g.dims (sides_of g)) }
    {
        let mut builder = Builder::new(alloc);
        let left = builder.add(&constraint.left, dims)?;
        let right = builder.add(&constraint.right, dims)?;
        let Builder { nodes, ready, .. } = builder;
        Ok(Graph {
            nodes,
            ready,
            left,
            relation: constraint.relation,
            right,
            dims,
        })
    }

    /// How many different subexpressions the two sides have.
    pub fn node_count(&self) -> u64
        ensures count { result ≡ length self.now.nodes }
        ensures parts { CountsParts (sides_of self.now) result }
    {
        self.nodes.len() as u64
    }

    /// Both sides' intervals on a box; None where a divisor's interval is [0,0].
    pub fn forward(&self, alloc: Global, bx: &IBox) -> Result<Option<Forward>, Memory>
        requires { length bx.now ≡ self.now.dims }
        ensures { IfOk result (λ f. f ≡ forward_sides (sides_of self.now) bx.now) }
    {
        self.forward_in(&mut Scratch::new(alloc), bx)
    }

    /// As `forward`, with room that is kept.
    pub fn forward_in(&self, scratch: &mut Scratch, bx: &IBox) -> Result<Option<Forward>, Memory>
        requires { length bx.now ≡ self.now.dims }
        ensures { IfOk result (λ f. f ≡ forward_sides (sides_of self.now) bx.now) }
    {
        fill(&mut scratch.values, &self.ready)?;
        Ok(forward_values(
            &self.nodes,
            self.left,
            self.relation,
            self.right,
            &mut scratch.values,
            bx,
        ))
    }

    /// Every graph's sides are over its variables. It holds by its contract alone; the call does
    /// nothing.
    pub fn learn(&self)
        ensures { AreOver self.now.dims (sides_of self.now) }
    {
        let _ = &self.nodes;
    }

    /// HC4-revise: narrows the box to what is left of it when each variable's occurrences are
    /// narrowed by the constraint. After `Empty`, and after want of memory, the box is as before.
    pub fn revise(&self, alloc: Global, bx: &mut IBox) -> Result<Revised, Memory>
        requires { length bx.old ≡ self.now.dims }
        ensures answer { IfOk result (λ r.
            IsAnswer (revised (sides_of self.now) bx.old) r bx.old bx.new) }
        ensures unchanged { OnErr result (bx.new ≡ bx.old) }
        ensures within { AreWithin bx.new bx.old }
        ensures points { IfOk result (λ r. LosesNoPoint (sides_of self.now) r bx.old bx.new) }
    {
        self.learn();
        self.revise_in(&mut Scratch::new(alloc), bx)
    }

    /// As `revise`, with room that is kept.
    pub fn revise_in(&self, scratch: &mut Scratch, bx: &mut IBox) -> Result<Revised, Memory>
        requires { length bx.old ≡ self.now.dims }
        ensures answer { IfOk result (λ r.
            IsAnswer (revised (sides_of self.now) bx.old) r bx.old bx.new) }
        ensures unchanged { OnErr result (bx.new ≡ bx.old) }
    {
        let judged = self.judge_in(scratch, bx)?;
        Ok(judged.revised())
    }

    /// As `revise`; the steps rise by one.
    pub fn revise_counted<L: Ledger>(
        &self,
        alloc: Global,
        bx: &mut IBox,
        steps: &mut Steps<L>,
    ) -> Result<Revised, Memory>
        requires { length bx.old ≡ self.now.dims }
        ensures answer { IfOk result (λ r.
            IsAnswer (revised (sides_of self.now) bx.old) r bx.old bx.new) }
        ensures unchanged { OnErr result (bx.new ≡ bx.old) }
        ensures counted { steps.new ≡ steps.old + 1 }
    {
        self.revise_counted_in(&mut Scratch::new(alloc), bx, steps)
    }

    /// As `revise_counted`, with room that is kept.
    pub fn revise_counted_in<L: Ledger>(
        &self,
        scratch: &mut Scratch,
        bx: &mut IBox,
        steps: &mut Steps<L>,
    ) -> Result<Revised, Memory>
        requires { length bx.old ≡ self.now.dims }
        ensures answer { IfOk result (λ r.
            IsAnswer (revised (sides_of self.now) bx.old) r bx.old bx.new) }
        ensures unchanged { OnErr result (bx.new ≡ bx.old) }
        ensures counted { steps.new ≡ steps.old + 1 }
    {
        steps.tick();
        self.revise_in(scratch, bx)
    }

    /// Whether the constraint holds at every point of the box, as the intervals of its sides show.
    pub fn sure(&self, alloc: Global, bx: &IBox) -> Result<bool, Memory>
        requires { length bx.now ≡ self.now.dims }
        ensures answer { IfOk result (λ r. r ≡ sure_of (sides_of self.now) bx.now) }
        ensures holds { IfOk result (λ r. IsTrue r → HoldsOn (sides_of self.now) bx.now) }
    {
        self.learn();
        self.sure_in(&mut Scratch::new(alloc), bx)
    }

    /// As `sure`, with room that is kept.
    pub fn sure_in(&self, scratch: &mut Scratch, bx: &IBox) -> Result<bool, Memory>
        requires { length bx.now ≡ self.now.dims }
        ensures { IfOk result (λ r. r ≡ sure_of (sides_of self.now) bx.now) }
    {
        match self.forward_in(scratch, bx)? {
            Some(f) => Ok(f.total && decides(self.relation, f.left, f.right)),
            None => Ok(false),
        }
    }
}

// Both sides' intervals. At the entry the values have the constants'.
fn forward_values(
    nodes: &[Node],
    left: usize,
    relation: Relation,
    right: usize,
    values: &mut [Interval],
    bx: &IBox,
) -> Option<Forward>
    requires graph { IsGraph (record {
      nodes = nodes.now;
      left = left;
      relation = relation;
      right = right;
      dims = length bx.now;
    }) }
    requires ready { AreReady nodes.now values.old }
    ensures { result ≡ forward_sides
        (sides_of (record {
          nodes = nodes.now;
          left = left;
          relation = relation;
          right = right;
          dims = length bx.now;
        })) bx.now }
{
    if !forward_all(nodes, bx, values) {
        return None;
    }
    Some(Forward {
        left: values[left],
        right: values[right],
        total: is_total(nodes, values, bx),
    })
}

/// Room for one interval a node and for the places of a box, kept from one call to the next.
#[derive(Drop)]
pub struct Scratch {
    pub(crate) values: Vec<Interval>,
    // The box as a revision found it.
    pub(crate) saved: [Interval; MOST_PLACES],
}

impl Scratch {
    /// Takes no memory yet.
    pub fn new(alloc: Global) -> Scratch {
        Scratch {
            values: Vec::new(alloc),
            saved: [Interval::ALL; MOST_PLACES],
        }
    }
}

/// Writes the intervals of the constants over a list, with one place a node.
pub fn fill(values: &mut Vec<Interval>, ready: &[Interval]) -> Result<(), Memory>
    ensures { OnOk result (values.new.items ≡ ready.now) }
{
    values.clear();
    values.extend_from_slice(ready)?;
    Ok(())
}
