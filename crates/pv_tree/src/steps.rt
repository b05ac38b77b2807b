//! Settling a paving's leaves by a settler, from stage to stage.
ghost use Rattle.std.specs.Prelude.{◌≡◌, ◌≤◌, if◌then◌else◌, is_ok, OnErr, Some, length};
ghost use Rattle.pv_tree.specs.Trees.{leaf, subtree};
ghost use Rattle.pv_tree.specs.Stages.{
  IsStage,
  settled_by,
  KeepsStages,
  StagesPave,
  ClosedStagesAreFull,
};
ghost use Rattle.pv_tree.specs.Sets.{IsSound};
ghost use Rattle.pv_tree.specs.Laws.{StagesAreSound};

use crate::path::Path;
use crate::paving::Paving;
use crate::settler::{Settler, settle_at};
use pv_box::IBox;
use pv_num::Memory;
use std::alloc::Global;

impl Paving {
    /// Settles an open leaf as a settler does, with the cuts that its depth leaves. `scratch` takes
    /// the leaf's box.
    pub fn settle_leaf<S: Settler>(
        &mut self,
        alloc: Global,
        settler: &S,
        path: Path,
        scratch: &mut IBox,
    ) -> Result<(), Memory>
        requires open { subtree self.old.tree path ≡ Some leaf }
        requires dims { length self.old.root ≡ S.dims settler.now }
        requires scratch { length scratch.old ≡ length self.old.root }
        ensures root { self.new.root ≡ self.old.root }
        ensures tree { self.new.tree ≡ (if is_ok result
            then settled_by (S.settle_of settler.now) (S.depth_of settler.now) self.old path
            else self.old.tree) }
        ensures spare { self.old.spare ≤ self.new.spare }
        ensures refused { OnErr result (self.new.spare ≡ self.old.spare) }
        ensures stage { KeepsStages (S.settle_of settler.now)
            (S.depth_of settler.now) self.old self.new }
        ensures scratch { length scratch.new ≡ length scratch.old }
    {
        let _places = self.dims();
        self.box_at(path, scratch);
        let _sides = scratch.dims();
        let outcome = settle_at(alloc, settler, scratch, path)?;
        match self.put(path, outcome) {
            Ok(()) => Ok(()),
            Err(_) => Err(Memory),
        }
    }

    /// Does nothing. Its contract is what holds of all stages over this root box: the open box is
    /// one and is sound, each stage of a sound opening is sound, and a stage with no open leaf is
    /// the full tree.
    pub fn learn_stages<S: Settler>(&self, settler: &S)
        requires { length self.now.root ≡ S.dims settler.now }
        ensures open_stage { IsStage (S.settle_of settler.now)
            (S.depth_of settler.now) self.now.root leaf leaf }
        ensures open_sound { IsSound (S.inside settler.now) self.now.root leaf }
        ensures sound { StagesAreSound (S.settle_of settler.now) (S.depth_of settler.now)
            (S.inside settler.now) self.now.root }
        ensures paves { StagesPave (S.settle_of settler.now)
            (S.depth_of settler.now) self.now.root }
        ensures whole { ClosedStagesAreFull (S.settle_of settler.now)
            (S.depth_of settler.now) self.now.root }
    {
        let _places = self.dims();
    }
}
