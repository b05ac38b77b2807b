//! The expression whose least value is sought.
ghost use Rattle.std.specs.Prelude.{◌≡◌, length, IfOk};
ghost use Rattle.pv_expr.specs.Terms.{term_of};
ghost use Rattle.pv_expr.specs.Systems.{IsOver};
ghost use Rattle.pv_least.specs.Objectives.{aim_of, low_of, value_bound};

use pv_box::IBox;
use pv_expr::{Constraint, Expr, Relation};
use pv_hc4::{Graph, Scratch};
use pv_num::{Memory, Num};
use std::alloc::Global;
use std::marker::Model;

/// An expression over the places of boxes, as a graph of shared nodes.
#[derive(Drop)]
pub struct Objective {
    // The left side of a constraint whose right side is 0.
    graph: Graph,
}

impl Model for Objective {
    ghost use Rattle.pv_hc4.specs.Graphs.{Parts};
    ghost use Rattle.pv_least.specs.Objectives.{HasAim};

    ghost Value = { Parts };

    ghost view = { λ a. a.graph };

    ghost invariant = { λ a. HasAim a.graph };
}

impl Objective {
    /// The objective of an expression over `dims` variables.
    pub fn of(alloc: Global, expr: &Expr, dims: u8) -> Result<Objective, Memory>
        requires { IsOver dims (term_of expr.now) }
        ensures aim { IfOk result (λ o. aim_of o ≡ term_of expr.now) }
        ensures dims { IfOk result (λ o. o.dims ≡ dims) }
    {
        let constraint = Constraint {
            left: expr.clone_of(alloc)?,
            relation: Relation::Ge,
            right: Expr::Const { p: 0, q: 1 },
        };
        let graph = Graph::of(alloc, &constraint, dims)?;
        Ok(Objective { graph })
    }

    /// Each objective is over its variables. It holds by its contract alone; the call does nothing.
    pub(crate) fn learn(&self)
        ensures { IsOver self.now.dims (aim_of self.now) }
    {
        self.graph.learn();
    }

    /// The lower end of the expression's interval on a box; None where it has none.
    pub(crate) fn low(&self, scratch: &mut Scratch, bx: &IBox) -> Result<Option<Num>, Memory>
        requires { length bx.now ≡ self.now.dims }
        ensures { IfOk result (λ r. r ≡ low_of (aim_of self.now) bx.now) }
    {
        match self.graph.forward_in(scratch, bx)? {
            Some(sides) => Ok(Some(sides.left.lo())),
            None => Ok(None),
        }
    }

    /// A bound above the expression's value at each point of a box; None where the expression is
    /// not shown to be defined on all of it.
    pub(crate) fn bound(&self, scratch: &mut Scratch, bx: &IBox) -> Result<Option<Num>, Memory>
        requires { length bx.now ≡ self.now.dims }
        ensures { IfOk result (λ r. r ≡ value_bound (aim_of self.now) bx.now) }
    {
        match self.graph.forward_in(scratch, bx)? {
            Some(sides) => {
                if sides.total {
                    Ok(Some(sides.left.hi()))
                } else {
                    Ok(None)
                }
            }
            None => Ok(None),
        }
    }
}
