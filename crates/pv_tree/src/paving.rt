//! Pavings.
ghost use Rattle.std.specs.Prelude.{◌≡◌, ◌+◌, ◌-◌, ◌*◌, ◌<◌, ◌≤◌, ◌^◌, ◌++◌, if◌then◌else◌, is_ok, IfOk, IfErr, OnOk, OnErr, IfSome, IsSome, IsTrue, Some, [], false, length};
ghost use Rattle.pv_tree.specs.Sets.{Covers};
ghost use Rattle.pv_tree.specs.Trees.{Tree, leaf, subtree, graft, settled, Fits, HasDepth, IsPaving, box_of, to_at, shape_of, counts_of, settled_of, height, opens, first, behind, Seen};
ghost use Rattle.pv_tree.specs.declared.path.TheConstants.{MOST_STEPS};

use crate::arena::{
    cell_after, cell_shape, child_box, close_way, copy_out, descend, lay_down, place, start_at,
    tally,
};
use crate::cell::Node;
use crate::intake::{Shift, combine, take_ends, take_nodes};
use crate::outcome::{Counts, Outcome, Shape};
use crate::path::Path;
use crate::search::{Spot, later, leftmost};
use pv_box::IBox;
use pv_interval::Interval;
use pv_num::Memory;
use std::alloc::Global;
use std::marker::Model;

/// An outcome that found no memory.
#[derive(Drop)]
pub struct PutRefused {
    pub outcome: Outcome,
}

/// A tree of settled boxes over a root box. Its open leaves are what is left to settle.
#[derive(Drop)]
pub struct Paving {
    pub(crate) root: IBox,
    pub(crate) ends: Vec<Interval>,
    pub(crate) nodes: Vec<Node>,
    pub(crate) counts: Counts,
    pub(crate) spare: u64,
}

impl Model for Paving {
    ghost use Rattle.std.specs.Prelude.{length, vec_len, vec_capacity};
    ghost use Rattle.pv_tree.specs.Trees.{Seen};
    ghost use Rattle.pv_tree.specs.Codes.{coded_seen};

    ghost Value = { Seen };

    ghost coded = { coded_seen };

    ghost use Rattle.pv_tree.specs.Arena.{whole_tree, IsWhole, HasRoom};

    ghost view = { λ a. record { root = a.root; tree = whole_tree (length a.root) a.ends.items a.nodes.items; spare = a.spare } };

    ghost invariant = { λ a. IsWhole a.root a.ends.items a.nodes.items a.counts × HasRoom (length a.root) a.spare (vec_len a.nodes) (vec_capacity a.nodes) (vec_len a.ends) (vec_capacity a.ends) };
}

/// So many settlings are more than memory holds.
const MOST_SPARE: u64 = 0x100_0000_0000;

impl Paving {
    /// The paving that is one open leaf.
    pub fn open(alloc: Global, bx: IBox) -> Result<Paving, Memory>
        ensures root { IfOk result (λ p. p.root ≡ bx) }
        ensures tree { IfOk result (λ p. p.tree ≡ leaf) }
    {
        let _places = bx.dims();
        let mut nodes = Vec::new(alloc);
        nodes.push(Node::OPEN)?;
        Ok(Paving {
            root: bx,
            ends: Vec::new(alloc),
            nodes,
            counts: Counts {
                cut: 0,
                removed: 0,
                inner: 0,
                small: 0,
                open_leaves: 1,
            },
            spare: 0,
        })
    }

    /// The number of places of the root box.
    pub fn dims(&self) -> u8
        ensures dims { result ≡ length self.now.root }
        ensures paving { IsPaving self.now.root self.now.tree }
        ensures covers { Covers self.now.root self.now.tree }
    {
        self.root.dims()
    }

    /// How many nodes there are of each kind.
    pub fn counts(&self) -> Counts
        ensures counts { result ≡ counts_of self.now.tree }
        ensures fit { settled_of result + result.open_leaves < 2 ^ 63 }
    {
        let _count = self.nodes.len();
        self.counts
    }

    /// Makes room for at least `settles` settlings.
    pub fn reserve(&mut self, settles: u64) -> Result<(), Memory>
        ensures root { self.new.root ≡ self.old.root }
        ensures tree { self.new.tree ≡ self.old.tree }
        ensures spare { OnOk result (settles ≤ self.new.spare) }
        ensures no_less { self.old.spare ≤ self.new.spare }
        ensures refused { OnErr result (self.new.spare ≡ self.old.spare) }
    {
        if settles <= self.spare {
            return Ok(());
        }
        if settles > MOST_SPARE {
            return Err(Memory);
        }
        let places = self.root.dims() as u64;
        self.nodes.reserve((2 * settles) as usize)?;
        self.ends.reserve((places * settles) as usize)?;
        self.spare = settles;
        Ok(())
    }

    /// Settles an open leaf in reserved room.
    pub fn put_in_room(&mut self, path: Path, outcome: Outcome)
        requires open { subtree self.old.tree path ≡ Some leaf }
        requires fits { Fits (box_of self.old.root self.old.tree path) outcome }
        requires depth { HasDepth path outcome }
        requires room { 1 ≤ self.old.spare }
        ensures root { self.new.root ≡ self.old.root }
        ensures tree { self.new.tree ≡ graft self.old.tree path (settled outcome) }
        ensures spare { self.old.spare ≤ self.new.spare + 1 }
    {
        let Some(at) = descend(&self.nodes, path, path.len()) else {
            unreachable!()
        };
        let cell = lay_down(&mut self.ends, &outcome, self.nodes.len());
        place(&mut self.nodes, at, cell);
        self.counts = tally(self.counts, &outcome);
        self.spare -= 1;
        close_way(&mut self.nodes, path);
    }

    /// Puts a stage of an open leaf's box in the leaf's place, in reserved room.
    pub fn graft(&mut self, path: Path, stage: &Paving)
        requires open { subtree self.old.tree path ≡ Some leaf }
        requires root { stage.now.root ≡ box_of self.old.root self.old.tree path }
        requires depth { length path + height stage.now.tree ≤ MOST_STEPS }
        requires room { settled_of (counts_of stage.now.tree) ≤ self.old.spare }
        ensures root { self.new.root ≡ self.old.root }
        ensures tree { self.new.tree ≡ graft self.old.tree path stage.now.tree }
        ensures spare { self.old.spare ≤ self.new.spare + settled_of (counts_of stage.now.tree) }
    {
        let Some(at) = descend(&self.nodes, path, path.len()) else {
            unreachable!()
        };
        let by = Shift {
            nodes: self.nodes.len() - 1,
            ends: self.ends.len(),
        };
        take_ends(&mut self.ends, &stage.ends);
        take_nodes(&mut self.nodes, at, &stage.nodes, by);
        self.counts = combine(self.counts, stage.counts);
        self.spare -= stage.counts.settled();
        close_way(&mut self.nodes, path);
    }

    /// Settles an open leaf. Want of memory hands the outcome back.
    pub fn put(&mut self, path: Path, outcome: Outcome) -> Result<(), PutRefused>
        requires open { subtree self.old.tree path ≡ Some leaf }
        requires fits { Fits (box_of self.old.root self.old.tree path) outcome }
        requires depth { HasDepth path outcome }
        ensures root { self.new.root ≡ self.old.root }
        ensures tree { self.new.tree ≡ (if is_ok result
            then graft self.old.tree path (settled outcome)
            else self.old.tree) }
        ensures spare { self.old.spare ≤ self.new.spare }
        ensures refused { OnErr result (self.new.spare ≡ self.old.spare) }
        ensures back { IfErr result (λ e. e.outcome ≡ outcome) }
    {
        let wanted = self.spare + 1;
        match self.reserve(wanted) {
            Ok(()) => {}
            Err(_) => return Err(PutRefused { outcome }),
        }
        self.put_in_room(path, outcome);
        Ok(())
    }

    /// The shape of the node at a path. It is absent exactly where the tree has no such path.
    pub fn shape_at(&self, path: Path) -> Shape
        ensures { result ≡ shape_of (subtree self.now.tree path) }
    {
        match cell_after(&self.nodes, path, path.len()) {
            Some(cell) => cell_shape(cell),
            None => Shape::Absent,
        }
    }

    /// The first open leaf in preorder.
    pub fn first_open(&self) -> Option<Path>
        ensures first { result ≡ first (opens self.now.tree) }
        ensures is_open { IfSome result (λ p. subtree self.now.tree p ≡ Some leaf) }
    {
        leftmost(
            &self.nodes,
            Spot {
                at: 0,
                path: Path::root(),
            },
        )
    }

    /// Whether no leaf is open.
    pub fn is_closed(&self) -> bool
        ensures closed { IsTrue result → opens self.now.tree ≡ [] }
        ensures open { result ≡ false → opens self.now.tree ≡ [] → ⊥ }
    {
        match self.first_open() {
            None => true,
            Some(_) => false,
        }
    }

    /// An equal paving, which has no room of its own.
    pub fn clone_of(&self, alloc: Global) -> Result<Paving, Memory>
        ensures root { IfOk result (λ p. p.root ≡ self.now.root) }
        ensures tree { IfOk result (λ p. p.tree ≡ self.now.tree) }
    {
        let root = self.root.clone_of(alloc)?;
        let ends = Vec::from_slice(alloc, self.ends.as_slice())?;
        let nodes = Vec::from_slice(alloc, self.nodes.as_slice())?;
        Ok(Paving {
            root,
            ends,
            nodes,
            counts: self.counts,
            spare: 0,
        })
    }

    /// Writes the box of the node at a path over another box.
    pub fn box_at(&self, path: Path, into: &mut IBox)
        requires there { IsSome (subtree self.now.tree path) }
        requires dims { length into.old ≡ length self.now.root }
        ensures is { into.new ≡ box_of self.now.root self.now.tree path }
        ensures places { length into.new ≡ length into.old }
    {
        let steps = path.len();
        if steps == 0 {
            into.copy_from(&self.root);
            return;
        }
        match cell_after(&self.nodes, path, steps - 1) {
            Some(cell) => child_box(&self.ends, cell, path.step(steps - 1), into),
            None => unreachable!(),
        }
    }

    /// Writes what the settled node at a path kept of its box over another box.
    pub fn to_at(&self, path: Path, into: &mut IBox)
        requires there { IsSome (to_at self.now.tree path) }
        requires dims { length into.old ≡ length self.now.root }
        ensures is { to_at self.now.tree path ≡ Some into.new }
        ensures places { length into.new ≡ length into.old }
    {
        let _steps = path.len();
        match start_at(&self.nodes, path) {
            Some(start) => copy_out(&self.ends, start, into),
            None => unreachable!(),
        }
    }

    /// The first open leaf that comes after a path's node in preorder.
    pub fn next_open(&self, after: Path) -> Option<Path>
        requires { IsSome (subtree self.now.tree after) }
        ensures next { result ≡ first (behind after (opens self.now.tree)) }
        ensures is_open { IfSome result (λ p. subtree self.now.tree p ≡ Some leaf) }
    {
        later(
            &self.nodes,
            Spot {
                at: 0,
                path: Path::root(),
            },
            after,
        )
    }
}
