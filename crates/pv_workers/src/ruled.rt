//! A settler whose rule is the one that a board is named for.
ghost use Rattle.std.specs.Prelude.{◌≡◌, ◌-◌, ◌≤◌, List, length, IfOk};
ghost use Rattle.pv_interval.specs.Bounds.{Bounds};
ghost use Rattle.pv_box.specs.declared.boxes.TheConstants.{MOST_PLACES};

use pv_board::Naming;
use pv_box::IBox;
use pv_num::Memory;
use pv_tree::{KnowingSettler, Outcome, Path, Settler, settle_at};
use std::alloc::Global;
use std::marker::PhantomData;

/// A settler that settles boxes by the rule that a board is named for.
#[derive(Drop)]
pub(crate) struct Ruled<'a, N: Naming, S: Settler> {
    pub(crate) settler: &'a S,
    /// How many places its boxes have.
    pub(crate) places: u8,
    of: PhantomData<N>,
    ghost rule: { N.rule ≡ S.settle_of settler.now },
    ghost depth: { N.depth ≡ S.depth_of settler.now },
    ghost dims: { N.dims ≡ S.dims settler.now },
    ghost some: { 1 ≤ places },
    ghost few: { places ≤ MOST_PLACES },
    ghost sides: { places ≡ N.dims },
}

impl<'a, N: Naming, S: Settler> Ruled<'a, N, S> {
    /// The settler under the board's name.
    pub(crate) fn of(settler: &'a S, places: u8) -> Ruled<'a, N, S>
        requires rule { N.rule ≡ S.settle_of settler.now }
        requires depth { N.depth ≡ S.depth_of settler.now }
        requires dims { N.dims ≡ S.dims settler.now }
        requires some { 1 ≤ places }
        requires few { places ≤ MOST_PLACES }
        requires places { places ≡ N.dims }
    {
        Ruled {
            settler,
            places,
            of: PhantomData,
        }
    }

    /// The outcome for the box of a path.
    pub(crate) fn settle(&self, alloc: Global, bx: &IBox, path: Path) -> Result<Outcome, Memory>
        requires { length bx.now ≡ N.dims }
        ensures { IfOk result (λ o. o ≡ N.rule bx.now (N.depth - length path) (length path)) }
    {
        settle_at(alloc, self.settler, bx, path)
    }
}

impl<'a, N: Naming, S: KnowingSettler> Ruled<'a, N, S> {
    /// To know nothing, which is true of every box.
    pub(crate) fn nothing(&self) -> S::Known
        ensures { (b : List Bounds) → S.knows self.now.settler.now result b }
    {
        self.settler.nothing()
    }
}
