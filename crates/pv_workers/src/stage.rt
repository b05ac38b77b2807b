//! Stages of a leaf's box, which a worker settles on its own.
ghost use Rattle.std.specs.Prelude.{◌≡◌, ◌+◌, ◌<◌, ◌≤◌, Bool, false, Some, List, length, vec_len, reverse, IfOk, OnOk};
ghost use Rattle.pv_tree.specs.Trees.{leaf, opens, box_of, subtree};
ghost use Rattle.pv_tree.specs.Stages.{full_of};
ghost use Rattle.pv_tree.specs.Holes.{IsNext};
ghost use Rattle.pv_tree.specs.KnownLeaves.{AreKnown};
ghost use Rattle.pv_board.specs.Events.{leaves_at};
ghost use Rattle.pv_board.specs.Rules.{IsStageBelow, settled_in};
ghost use Rattle.pv_workers.specs.Facts.{AreFacts, AreLaid};
ghost use Rattle.pv_workers.specs.Leaves.{AreOpen};
ghost use Rattle.pv_tree.specs.declared.path.TheConstants.{MOST_STEPS};

use crate::bench::Bench;
use crate::ruled::Ruled;
use pv_board::{Naming, Shared};
use pv_num::Memory;
use pv_pool::Gate;
use pv_tree::{Grower, KnowingSettler, MOST_BATCH, Path, Paving, Workspace};
use std::alloc::Global;

/// From so many nodes on a stage is ended where another worker has nothing to do.
const SHARED_FROM: u64 = 32;

/// A worker at a leaf, which it settles together with nodes below it.
#[derive(Drop)]
pub(crate) struct Stager<'a, N: Naming, S: KnowingSettler, G: Gate> {
    pub(crate) alloc: Global,
    pub(crate) ruled: &'a Ruled<'a, N, S>,
    pub(crate) shared: &'a Shared<N>,
    pub(crate) gate: &'a G,
    /// The worker's number.
    pub(crate) worker: u64,
    /// The leaf's path from the root of all.
    pub(crate) at: Path,
}

impl<'a, N: Naming, S: KnowingSettler, G: Gate> Stager<'a, N, S, G> {
    /// Settles up to `most` nodes of the box in the workspace, which is that of the leaf, each
    /// time the first open leaf; fewer where another worker has nothing to do. What is known of a box
    /// is handed to its halves. The paths of the stage's open leaves from the root of all are left in
    /// `bench.leaves`, and what is known of them in the workspace, that of the first one last.
    ///
    /// # Errors
    ///
    /// Want of memory.
    pub(crate) fn grow(
        &self,
        known: S::Known,
        most: u64,
        bench: &mut Bench<S>,
    ) -> Result<Paving, Memory>
        requires some { 1 ≤ most }
        requires places { length bench.old.workspace.scratch ≡ N.dims }
        requires known { S.knows self.now.ruled.now.settler.now known bench.old.workspace.scratch }
        ensures root { IfOk result (λ p. p.root ≡ bench.old.workspace.scratch) }
        ensures stage { IfOk result (λ p.
            IsStageBelow N.rule N.depth bench.old.workspace.scratch (length self.now.at) p.tree) }
        ensures some { IfOk result (λ p. 1 ≤ settled_in p.tree) }
        ensures few { IfOk result (λ p. settled_in p.tree ≤ most) }
        ensures leaves { IfOk result (λ p.
            bench.new.leaves.items ≡ leaves_at self.now.at p.tree) }
        ensures few_leaves { IfOk result (λ _. vec_len bench.new.leaves ≤ MOST_BATCH) }
        ensures facts { IfOk result (λ p. AreFacts (S.knows self.now.ruled.now.settler.now)
            (box_of bench.old.workspace.scratch
            (full_of N.rule N.depth bench.old.workspace.scratch leaf (length self.now.at)))
            (opens p.tree) (reverse bench.new.workspace.facts.items)) }
        ensures places { length bench.new.workspace.scratch ≡ N.dims }
        ensures tickets { bench.new.tickets ≡ bench.old.tickets }
    {
        let settler = self.ruled.settler;
        let mut stage = Grower::open(self.alloc, settler, self.at, known, &mut bench.workspace)?;
        let _places = stage.growth.dims();
        let _steps = self.at.len();
        self.settle_next(Path::root(), &mut stage, &mut bench.workspace)?;
        self.grow_on(most, &mut stage, &mut bench.workspace)?;
        list_leaves(&mut stage, &mut bench.leaves)?;
        Ok(stage.finish())
    }

    // Settles further leaves of a stage of one node.
    fn grow_on(
        &self,
        most: u64,
        stage: &mut Grower,
        workspace: &mut Workspace<S>,
    ) -> Result<(), Memory>
        requires some { 1 ≤ most }
        requires one { settled_in stage.old.growth.tree ≡ 1 }
        requires dims { length stage.old.growth.root ≡ N.dims }
        requires stage { IsStageBelow N.rule N.depth stage.old.growth.root (length self.now.at)
            stage.old.growth.tree }
        requires facts { AreKnown (S.knows self.now.ruled.now.settler.now)
            (reverse workspace.old.facts.items) stage.old.growth.holes }
        requires few_facts { vec_len workspace.old.facts ≤ MOST_BATCH }
        requires laid { AreLaid
            (full_of N.rule N.depth stage.old.growth.root leaf (length self.now.at)) stage.old.growth }
        requires places { length workspace.old.scratch ≡ N.dims }
        requires at { stage.old.at ≡ self.now.at }
        ensures at { stage.new.at ≡ stage.old.at }
        ensures root { stage.new.growth.root ≡ stage.old.growth.root }
        ensures stage { OnOk result (IsStageBelow N.rule N.depth stage.new.growth.root
            (length self.now.at) stage.new.growth.tree) }
        ensures some { OnOk result (1 ≤ settled_in stage.new.growth.tree) }
        ensures few { OnOk result (settled_in stage.new.growth.tree ≤ most) }
        ensures facts { OnOk result (AreKnown (S.knows self.now.ruled.now.settler.now)
            (reverse workspace.new.facts.items) stage.new.growth.holes) }
        ensures few_facts { OnOk result (vec_len workspace.new.facts ≤ MOST_BATCH) }
        ensures laid { OnOk result (AreLaid
            (full_of N.rule N.depth stage.new.growth.root leaf (length self.now.at)) stage.new.growth) }
        ensures places { length workspace.new.scratch ≡ N.dims }
    {
        for settled in 1..most {
            if is_long(settled, workspace.facts.len(), self.shared) {
                return Ok(());
            }
            let Some(path) = stage.next() else {
                return Ok(());
            };
            self.settle_next(path, stage, workspace)?;
        }
        Ok(())
    }

    // Settles the next leaf of a stage, with the cuts that its whole path leaves.
    fn settle_next(
        &self,
        path: Path,
        stage: &mut Grower,
        workspace: &mut Workspace<S>,
    ) -> Result<(), Memory>
        requires next { IsNext stage.old.growth path }
        requires dims { length stage.old.growth.root ≡ N.dims }
        requires stage { IsStageBelow N.rule N.depth stage.old.growth.root (length self.now.at)
            stage.old.growth.tree }
        requires facts { AreKnown (S.knows self.now.ruled.now.settler.now)
            (reverse workspace.old.facts.items) stage.old.growth.holes }
        requires laid { AreLaid
            (full_of N.rule N.depth stage.old.growth.root leaf (length self.now.at)) stage.old.growth }
        requires places { length workspace.old.scratch ≡ N.dims }
        requires at { stage.old.at ≡ self.now.at }
        ensures at { stage.new.at ≡ stage.old.at }
        ensures root { stage.new.growth.root ≡ stage.old.growth.root }
        ensures stage { OnOk result (IsStageBelow N.rule N.depth stage.new.growth.root
            (length self.now.at) stage.new.growth.tree) }
        ensures more { OnOk result (settled_in stage.new.growth.tree ≡ settled_in stage.old.growth.tree + 1) }
        ensures facts { OnOk result (AreKnown (S.knows self.now.ruled.now.settler.now)
            (reverse workspace.new.facts.items) stage.new.growth.holes) }
        ensures laid { OnOk result (AreLaid
            (full_of N.rule N.depth stage.new.growth.root leaf (length self.now.at)) stage.new.growth) }
        ensures few_facts { OnOk result
            (vec_len workspace.new.facts ≤ vec_len workspace.old.facts + 1) }
        ensures places { length workspace.new.scratch ≡ N.dims }
    {
        let _places = stage.growth.dims();
        let _steps = self.at.len();
        self.gate.enter(self.worker, self.at.then(path));
        stage.step(self.alloc, self.ruled.settler, workspace, path)?;
        Ok(())
    }
}

// Whether a stage of so many nodes and open leaves is to end.
fn is_long<N: Naming>(settled: u64, leaves: usize, shared: &Shared<N>) -> bool
    ensures { result ≡ false → leaves < MOST_BATCH }
{
    if MOST_BATCH <= leaves {
        return true;
    }
    SHARED_FROM <= settled && shared.is_hungry()
}

// Lists the open leaves of a stage, and passes them.
fn list_leaves(stage: &mut Grower, leaves: &mut Vec<Path>) -> Result<(), Memory>
    requires open { AreOpen stage.old.growth }
    requires short { (p : List Bool) → subtree stage.old.growth.tree p ≡ Some leaf →
        length stage.old.at + length p ≤ MOST_STEPS }
    ensures root { stage.new.growth.root ≡ stage.old.growth.root }
    ensures tree { stage.new.growth.tree ≡ stage.old.growth.tree }
    ensures leaves { OnOk result
        (leaves.new.items ≡ leaves_at stage.old.at stage.old.growth.tree) }
{
    leaves.clear();
    while let Some(path) = stage.next() {
        leaves.push(stage.at.then(path))?;
        stage.growth.pass();
    }
    Ok(())
}
