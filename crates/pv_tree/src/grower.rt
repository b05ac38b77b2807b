//! Growing a tree below a leaf by a settler that knows.
ghost use Rattle.std.specs.Prelude.{◌≡◌, ◌+◌, ◌-◌, ◌<◌, ◌≤◌, [], None, length, vec_len, reverse, IfOk, IfSome, OnOk};
ghost use Rattle.pv_tree.specs.Trees.{Tree, Paves, counts_of, settled_of};
ghost use Rattle.pv_tree.specs.Holes.{growth_over, rest_of, settle_next, pass_next, Takes, IsNext, IsFirstBox};
ghost use Rattle.pv_tree.specs.KnownHalves.{HoldsOfHalves};
ghost use Rattle.pv_tree.specs.KnownLeaves.{AreKnown, with_handed};
ghost use Rattle.pv_tree.specs.Stages.{IsStageFrom};

use crate::growth::Growth;
use crate::knowing::{KnowingSettler, Settled};
use crate::outcome::Outcome;
use crate::path::Path;
use crate::paving::Paving;
use crate::settler::cuts_left;
use crate::workspace::Workspace;
use pv_num::Memory;
use std::alloc::Global;

/// A tree that grows below a leaf. Each of its open leaves in turn, in preorder, is settled with
/// what is known of its box, and hands what is then known to its halves; or it is passed, and stays
/// open. The workspace has what is known of the leaves that are to come.
#[derive(Drop)]
pub struct Grower {
    /// The leaf's path from the root of all.
    pub at: Path,
    pub growth: Growth,
}

impl Grower {
    /// A tree that is one open leaf, whose box is in the workspace, and of which something is known.
    ///
    /// # Errors
    ///
    /// Want of memory.
    pub fn open<S: KnowingSettler>(
        alloc: Global,
        _settler: &S,
        at: Path,
        known: S::Known,
        workspace: &mut Workspace<S>,
    ) -> Result<Grower, Memory>
        requires known { S.knows _settler.now known workspace.old.scratch }
        ensures at { IfOk result (λ g. g.at ≡ at) }
        ensures growth { IfOk result (λ g. g.growth ≡ growth_over workspace.old.scratch) }
        ensures facts { IfOk result (λ g. AreKnown (S.knows _settler.now)
            (reverse workspace.new.facts.items) g.growth.holes) }
        ensures few { IfOk result (λ _. vec_len workspace.new.facts ≤ 1) }
        ensures scratch { workspace.new.scratch ≡ workspace.old.scratch }
    {
        let growth = Growth::open(alloc, workspace.scratch.clone_of(alloc)?)?;
        workspace.facts.clear();
        workspace.facts.push(known)?;
        Ok(Grower { at, growth })
    }

    /// The path below the leaf of the open leaf that comes next. None exactly where none is to come.
    pub fn next(&self) -> Option<Path>
        ensures next { IfSome result (λ p. IsNext self.now.growth p) }
        ensures none { result ≡ None → self.now.growth.holes ≡ [] }
    {
        self.growth.next_leaf()
    }

    /// Settles the leaf that comes next with what is known of it, and hands on to its halves what is
    /// then known.
    ///
    /// # Errors
    ///
    /// Want of memory.
    pub fn step<S: KnowingSettler>(
        &mut self,
        alloc: Global,
        settler: &S,
        workspace: &mut Workspace<S>,
        path: Path,
    ) -> Result<(), Memory>
        requires next { IsNext self.old.growth path }
        requires dims { length self.old.growth.root ≡ S.dims settler.now }
        requires facts { AreKnown (S.knows settler.now)
            (reverse workspace.old.facts.items) self.old.growth.holes }
        requires scratch { length workspace.old.scratch ≡ S.dims settler.now }
        ensures at { self.new.at ≡ self.old.at }
        ensures root { self.new.growth.root ≡ self.old.growth.root }
        ensures scratch { length workspace.new.scratch ≡ S.dims settler.now }
        ensures settled { OnOk result (self.new.growth ≡ settle_next self.old.growth
            (S.settle_of settler.now workspace.new.scratch
            (S.depth_of settler.now - (length self.old.at + length path))
            (length self.old.at + length path))) }
        ensures facts { OnOk result (AreKnown (S.knows settler.now)
            (reverse workspace.new.facts.items) self.new.growth.holes) }
        ensures few { OnOk result
            (vec_len workspace.new.facts ≤ vec_len workspace.old.facts + 1) }
        ensures more { OnOk result (settled_of (counts_of self.new.growth.tree)
            ≡ settled_of (counts_of self.old.growth.tree) + 1) }
        ensures stage { OnOk result
            ((opening : Tree) → Paves self.old.growth.root opening
            → IsStageFrom (S.settle_of settler.now) (S.depth_of settler.now)
            self.old.growth.root opening (length self.old.at) self.old.growth.tree
            → IsStageFrom (S.settle_of settler.now) (S.depth_of settler.now)
            self.new.growth.root opening (length self.old.at) self.new.growth.tree) }
    {
        let _places = self.growth.dims();
        self.look(workspace);
        let settled = self.settle(alloc, settler, workspace, path)?;
        self.lay(settler, workspace, settled)?;
        Ok(())
    }

    /// Writes the box of the leaf that comes next into the workspace.
    pub fn look<S: KnowingSettler>(&self, workspace: &mut Workspace<S>)
        requires some { 0 < length self.now.growth.holes }
        requires scratch { length workspace.old.scratch ≡ length self.now.growth.root }
        ensures first { IsFirstBox self.now.growth.holes workspace.new.scratch }
        ensures scratch { length workspace.new.scratch ≡ length workspace.old.scratch }
        ensures facts { workspace.new.facts ≡ workspace.old.facts }
    {
        self.growth.write_box(&mut workspace.scratch);
    }

    /// Settles the box in the workspace, which is that of the leaf that comes next, with the cuts
    /// that its whole path leaves. What is known of the leaf is taken from the workspace; `lay`
    /// follows.
    ///
    /// # Errors
    ///
    /// Want of memory.
    pub fn settle<S: KnowingSettler>(
        &self,
        alloc: Global,
        settler: &S,
        workspace: &mut Workspace<S>,
        path: Path,
    ) -> Result<Settled<S::Known>, Memory>
        requires next { IsNext self.now.growth path }
        requires dims { length self.now.growth.root ≡ S.dims settler.now }
        requires first { IsFirstBox self.now.growth.holes workspace.old.scratch }
        requires facts { AreKnown (S.knows settler.now)
            (reverse workspace.old.facts.items) self.now.growth.holes }
        ensures outcome { IfOk result (λ s. s.outcome ≡
            S.settle_of settler.now workspace.old.scratch
            (S.depth_of settler.now - (length self.now.at + length path))
            (length self.now.at + length path)) }
        ensures takes { IfOk result (λ s. Takes self.now.growth.holes s.outcome) }
        ensures known { IfOk result (λ s.
            HoldsOfHalves (S.knows settler.now s.known) s.outcome) }
        ensures rest { AreKnown (S.knows settler.now)
            (reverse workspace.new.facts.items) (rest_of self.now.growth.holes) }
        ensures few { vec_len workspace.new.facts + 1 ≡ vec_len workspace.old.facts }
        ensures scratch { workspace.new.scratch ≡ workspace.old.scratch }
    {
        let steps = self.at.len() + path.len();
        let Some(known) = workspace.facts.pop() else {
            unreachable!()
        };
        settler.settle_knowing(
            alloc,
            &mut workspace.room,
            &workspace.scratch,
            known,
            cuts_left(settler, steps),
            steps,
        )
    }

    /// Lays down what settling the leaf that comes next found, and hands on what is then known.
    ///
    /// # Errors
    ///
    /// Want of memory.
    pub fn lay<S: KnowingSettler>(
        &mut self,
        _settler: &S,
        workspace: &mut Workspace<S>,
        settled: Settled<S::Known>,
    ) -> Result<(), Memory>
        requires takes { Takes self.old.growth.holes settled.outcome }
        requires known { HoldsOfHalves (S.knows _settler.now settled.known) settled.outcome }
        requires rest { AreKnown (S.knows _settler.now)
            (reverse workspace.old.facts.items) (rest_of self.old.growth.holes) }
        ensures at { self.new.at ≡ self.old.at }
        ensures root { self.new.growth.root ≡ self.old.growth.root }
        ensures settled { OnOk result
            (self.new.growth ≡ settle_next self.old.growth settled.outcome) }
        ensures facts { OnOk result (AreKnown (S.knows _settler.now)
            (reverse workspace.new.facts.items) self.new.growth.holes) }
        ensures few { OnOk result
            (vec_len workspace.new.facts ≤ vec_len workspace.old.facts + 2) }
        ensures scratch { workspace.new.scratch ≡ workspace.old.scratch }
    {
        let Settled { outcome, known } = settled;
        hand_on(&mut workspace.facts, &outcome, known)?;
        match self.growth.settle(outcome) {
            Ok(()) => Ok(()),
            Err(_) => Err(Memory),
        }
    }

    /// Leaves the leaf that comes next open.
    pub fn pass<S: KnowingSettler>(&mut self, _settler: &S, workspace: &mut Workspace<S>)
        requires some { 0 < length self.old.growth.holes }
        requires facts { AreKnown (S.knows _settler.now)
            (reverse workspace.old.facts.items) self.old.growth.holes }
        ensures at { self.new.at ≡ self.old.at }
        ensures growth { self.new.growth ≡ pass_next self.old.growth }
        ensures facts { AreKnown (S.knows _settler.now)
            (reverse workspace.new.facts.items) self.new.growth.holes }
        ensures scratch { workspace.new.scratch ≡ workspace.old.scratch }
    {
        self.growth.pass();
        let Some(_known) = workspace.facts.pop() else {
            unreachable!()
        };
    }

    /// The paving below the leaf as it stands.
    pub fn finish(self) -> Paving
        ensures root { result.root ≡ self.growth.root }
        ensures tree { result.tree ≡ self.growth.tree }
    {
        let Grower { at: _, growth } = self;
        growth.finish()
    }
}

// Hands what is known to the halves of a cut.
fn hand_on<K: Copy + Drop>(facts: &mut Vec<K>, outcome: &Outcome, known: K) -> Result<(), Memory>
    ensures handed { OnOk result
        (facts.new.items ≡ with_handed facts.old.items outcome.now known) }
    ensures few { OnOk result (vec_len facts.new ≤ vec_len facts.old + 2) }
{
    match outcome {
        Outcome::Cut { .. } => {
            facts.push(known)?;
            facts.push(known)?;
            Ok(())
        }
        Outcome::Removed | Outcome::Inner { .. } | Outcome::Small { .. } => Ok(()),
    }
}
