//! Pavings that are built in preorder.
ghost use Rattle.std.specs.Prelude.{◌≡◌, ◌+◌, ◌<◌, ◌≤◌, ◌^◌, if◌then◌else◌, is_ok, [], IfOk, IfErr, IfSome, OnOk, None, length, vec_len, vec_capacity};
ghost use Rattle.pv_box.specs.Boxes.{IsBox};
ghost use Rattle.pv_tree.specs.Trees.{counts_of, settled_of};
ghost use Rattle.pv_tree.specs.Holes.{growth_over, settle_next, pass_next, Takes, IsNext, IsFirstBox};

use crate::arena::{lay_down, mark_all, place, tally};
use crate::cell::Node;
use crate::outcome::{Counts, Outcome};
use crate::path::{MOST_LEVELS, Path};
use crate::paving::{Paving, PutRefused};
use crate::stop::{Stop, push_kids, write_stop_box};
use pv_box::IBox;
use pv_interval::Interval;
use pv_num::Memory;
use std::alloc::Global;
use std::marker::Model;

/// A paving that is built in preorder: each open leaf in turn is settled, and then its children
/// come next, or it is left open. A step takes the same time at each depth.
#[derive(Drop)]
pub struct Growth {
    root: IBox,
    ends: Vec<Interval>,
    nodes: Vec<Node>,
    counts: Counts,
    stops: Vec<Stop>,
}

impl Model for Growth {
    ghost use Rattle.std.specs.Prelude.{length, vec_capacity};
    ghost use Rattle.pv_tree.specs.Holes.{Growing};
    ghost use Rattle.pv_tree.specs.Codes.{coded_growing};

    ghost Value = { Growing };

    ghost coded = { coded_growing };

    ghost use Rattle.pv_tree.specs.Arena.{whole_tree};
    ghost use Rattle.pv_tree.specs.Stops.{growing, IsGrowth};

    ghost view = { λ a. growing a.root (whole_tree (length a.root) a.ends.items a.nodes.items) a.stops.items };

    ghost invariant = { λ a. IsGrowth a.root a.ends.items a.nodes.items a.counts a.stops.items (vec_capacity a.stops) };
}

/// Makes room for what one settling puts into an arena.
fn reserve_step(nodes: &mut Vec<Node>, ends: &mut Vec<Interval>, places: u8) -> Result<(), Memory>
    ensures nodes { nodes.new.items ≡ nodes.old.items }
    ensures ends { ends.new.items ≡ ends.old.items }
    ensures for_nodes { OnOk result (vec_len nodes.new + 2 ≤ vec_capacity nodes.new) }
    ensures for_ends { OnOk result (vec_len ends.new + places ≤ vec_capacity ends.new) }
{
    nodes.reserve(2)?;
    ends.reserve(places as usize)?;
    Ok(())
}

impl Growth {
    /// A growth that is one open leaf, which comes next.
    pub fn open(alloc: Global, bx: IBox) -> Result<Growth, Memory>
        ensures { IfOk result (λ g. g ≡ growth_over bx) }
    {
        let _places = bx.dims();
        let mut nodes = Vec::new(alloc);
        nodes.push(Node::OPEN)?;
        let mut stops = Vec::with_capacity(alloc, MOST_LEVELS as usize)?;
        stops.push_reserved(Stop::ROOT);
        Ok(Growth {
            root: bx,
            ends: Vec::new(alloc),
            nodes,
            counts: Counts::OPEN,
            stops,
        })
    }

    /// The number of places of the root box.
    pub fn dims(&self) -> u8
        ensures dims { result ≡ length self.now.root }
        ensures is_box { IsBox self.now.root }
    {
        self.root.dims()
    }

    /// The path of the leaf that comes next. None exactly where no leaf is to come.
    pub fn next_leaf(&self) -> Option<Path>
        ensures next { IfSome result (λ p. IsNext self.now p) }
        ensures none { result ≡ None → self.now.holes ≡ [] }
    {
        let count = self.stops.len();
        if count == 0 {
            return None;
        }
        Some(self.stops[count - 1].path)
    }

    /// How many nodes there are of each kind.
    pub fn counts(&self) -> Counts
        ensures counts { result ≡ counts_of self.now.tree }
        ensures fit { settled_of result + result.open_leaves < 2 ^ 63 }
    {
        let _count = self.nodes.len();
        self.counts
    }

    /// Writes the box of the leaf that comes next over another box.
    pub fn write_box(&self, into: &mut IBox)
        requires some { 0 < length self.now.holes }
        requires dims { length into.old ≡ length self.now.root }
        ensures is { IsFirstBox self.now.holes into.new }
        ensures places { length into.new ≡ length into.old }
    {
        let last = self.stops.len() - 1;
        let stop = &self.stops[last];
        write_stop_box(&self.root, &self.ends, &self.nodes, stop, into);
    }

    /// Settles the leaf that comes next. Want of memory hands the outcome back.
    pub fn settle(&mut self, outcome: Outcome) -> Result<(), PutRefused>
        requires { Takes self.old.holes outcome }
        ensures root { self.new.root ≡ self.old.root }
        ensures settled { self.new ≡
            (if is_ok result then settle_next self.old outcome else self.old) }
        ensures back { IfErr result (λ e. e.outcome ≡ outcome) }
    {
        let places = self.root.dims();
        match reserve_step(&mut self.nodes, &mut self.ends, places) {
            Ok(()) => {}
            Err(_) => return Err(PutRefused { outcome }),
        }
        let Some(stop) = self.stops.pop() else {
            unreachable!()
        };
        let cell = lay_down(&mut self.ends, &outcome, self.nodes.len());
        place(&mut self.nodes, stop.at, cell);
        self.counts = tally(self.counts, &outcome);
        push_kids(&mut self.stops, &self.nodes, &stop);
        Ok(())
    }

    /// Leaves the leaf that comes next open.
    pub fn pass(&mut self)
        requires { 0 < length self.old.holes }
        ensures { self.new ≡ pass_next self.old }
    {
        let Some(_stop) = self.stops.pop() else {
            unreachable!()
        };
    }

    /// The paving as it stands.
    pub fn finish(self) -> Paving
        ensures root { result.root ≡ self.root }
        ensures tree { result.tree ≡ self.tree }
    {
        let mut nodes = self.nodes;
        mark_all(&mut nodes);
        Paving {
            root: self.root,
            ends: self.ends,
            nodes,
            counts: self.counts,
            spare: 0,
        }
    }
}
