//! Walks over the nodes of a paving in preorder.
ghost use Rattle.std.specs.Prelude.{◌≡◌, [], IfOk, IfSome, IsSome, Some, None, length};
ghost use Rattle.pv_tree.specs.Trees.{to_at};
ghost use Rattle.pv_tree.specs.Pieces.{walk_from, IsVisit, IsPiece};

use crate::arena::{cell_shape, copy_out, start_in};
use crate::cell::Node;
use crate::outcome::Shape;
use crate::path::{MOST_LEVELS, Path};
use crate::paving::Paving;
use crate::stop::{Stop, copy_stops, push_kids, write_stop_box};
use pv_box::IBox;
use pv_interval::Interval;
use pv_num::Memory;
use std::alloc::Global;
use std::marker::Model;

/// A walk over the nodes of a paving in preorder. A step takes the same time at each depth, and no
/// memory.
#[derive(Drop)]
pub struct Walk<'a> {
    root: &'a IBox,
    ends: &'a [Interval],
    nodes: &'a [Node],
    here: Stop,
    stops: Vec<Stop>,
}

impl<'a> Model for Walk<'a> {
    ghost use Rattle.std.specs.Prelude.{length, vec_capacity};
    ghost use Rattle.pv_tree.specs.Pieces.{Walked};
    ghost use Rattle.pv_tree.specs.Codes.{coded_walked};

    ghost Value = { Walked };

    ghost coded = { coded_walked };

    ghost use Rattle.pv_tree.specs.Arena.{whole_tree};
    ghost use Rattle.pv_tree.specs.Stops.{walked, IsWalk};

    ghost view = { λ a. walked a.root.now (whole_tree (length a.root.now) a.ends.now a.nodes.now) a.here a.stops.items };

    ghost invariant = { λ a. IsWalk a.root.now a.ends.now a.nodes.now a.here a.stops.items (vec_capacity a.stops) };
}

impl<'a> Walk<'a> {
    /// A walk that is to begin at the root.
    pub fn of(alloc: Global, paving: &'a Paving) -> Result<Walk<'a>, Memory>
        ensures { IfOk result (λ w. w ≡ walk_from paving.now.root paving.now.tree) }
    {
        let mut stops = Vec::with_capacity(alloc, MOST_LEVELS as usize)?;
        stops.push_reserved(Stop::ROOT);
        Ok(Walk {
            root: &paving.root,
            ends: paving.ends.as_slice(),
            nodes: paving.nodes.as_slice(),
            here: Stop::ROOT,
            stops,
        })
    }

    /// A walk that stands where this one does.
    pub fn clone_of(&self, alloc: Global) -> Result<Walk<'a>, Memory>
        ensures { IfOk result (λ w. w ≡ self.now) }
    {
        let mut stops = Vec::with_capacity(alloc, MOST_LEVELS as usize)?;
        copy_stops(&self.stops, &mut stops);
        Ok(Walk {
            root: self.root,
            ends: self.ends,
            nodes: self.nodes,
            here: self.here,
            stops,
        })
    }

    /// Goes to the next node in preorder and answers its shape. None exactly where the walk is
    /// over.
    pub fn next(&mut self) -> Option<Shape>
        ensures root { self.new.root ≡ self.old.root }
        ensures tree { self.new.tree ≡ self.old.tree }
        ensures visit { IfSome result (λ s. IsVisit self.old self.new s) }
        ensures piece { IsPiece self.new.root self.new.tree self.new.here }
        ensures over { result ≡ None → self.old.pending ≡ [] }
        ensures stays { result ≡ None → self.new ≡ self.old }
    {
        let here = self.stops.pop()?;
        push_kids(&mut self.stops, self.nodes, &here);
        let cell = self.nodes[here.at].cell;
        self.here = here;
        Some(cell_shape(cell))
    }

    /// The path of the node just visited.
    pub fn path(&self) -> Path
        ensures { result ≡ self.now.here.path }
    {
        self.here.path
    }

    /// Writes the box of the node just visited over another box.
    pub fn write_box(&self, into: &mut IBox)
        requires { length into.old ≡ length self.now.root }
        ensures is { into.new ≡ self.now.here.box }
        ensures places { length into.new ≡ length into.old }
    {
        write_stop_box(self.root, self.ends, self.nodes, &self.here, into);
    }

    /// Writes what the settled node just visited kept of its box over another box.
    pub fn write_to(&self, into: &mut IBox)
        requires there { IsSome (to_at self.now.here.tree []) }
        requires dims { length into.old ≡ length self.now.root }
        ensures is { to_at self.now.here.tree [] ≡ Some into.new }
        ensures places { length into.new ≡ length into.old }
    {
        match start_in(self.nodes[self.here.at].cell) {
            Some(start) => copy_out(self.ends, start, into),
            None => unreachable!(),
        }
    }
}
