//! What settles a box with what is known of it from the settling of a box around it.

use crate::outcome::Outcome;
use crate::settler::Settler;
use pv_box::IBox;
use pv_num::Memory;
use std::alloc::Global;

/// What settling a box found, and what is then known.
#[derive(Drop)]
pub struct Settled<K> {
    pub outcome: Outcome,
    /// Where the outcome is a cut, this is true of each half.
    pub known: K,
}

/// A settler that works nothing out again that is known of a box from the settling of a box
/// around it. It answers what the settler answers that knows nothing.
pub trait KnowingSettler: Settler {
    ghost use Rattle.std.specs.Prelude.{◌≡◌, ℕ, List, length, IfOk};
    ghost use Rattle.pv_interval.specs.Bounds.{Bounds};
    ghost use Rattle.pv_tree.specs.KnownHalves.{HoldsOfHalves};

    /// What can be known of a box.
    type Known: Copy + Drop;

    /// Room for settling, kept from one call to the next. What is in it matters to no call.
    type Room: Drop;

    /// What is known is true of a box.
    ghost knows: { Self → Self.Known → List Bounds → Type 0 };

    /// Room that takes no memory yet.
    fn room(&self, alloc: Global) -> Self::Room;

    /// To know nothing, which is true of every box.
    fn nothing(&self) -> Self::Known
        ensures { (b : List Bounds) → knows self.now result b };

    /// As `settle`, where something is known of the box.
    fn settle_knowing(
        &self,
        alloc: Global,
        room: &mut Self::Room,
        bx: &IBox,
        known: Self::Known,
        depth_left: u32,
        path_len: u32,
    ) -> Result<Settled<Self::Known>, Memory>
        requires dims { length bx.now ≡ Self.dims self.now }
        requires known { knows self.now known bx.now }
        ensures outcome { IfOk result (λ s. s.outcome ≡
            Self.settle_of self.now bx.now depth_left path_len) }
        ensures known { IfOk result (λ s. HoldsOfHalves (knows self.now s.known) s.outcome) };
}

/// What a settler knows that works everything out again.
#[derive(Clone, Copy)]
pub struct Nothing;

/// Makes any settler, which is lent to it, one that knows, and knows nothing.
#[derive(Drop)]
pub struct Forgetful<'a, S> {
    pub settler: &'a S,
}

impl<'a, S: Settler> Settler for Forgetful<'a, S> {
    ghost dims = { λ s. S.dims s.settler.now };

    ghost depth_of = { λ s. S.depth_of s.settler.now };

    ghost settle_of = { λ s. S.settle_of s.settler.now };

    ghost inside = { λ s. S.inside s.settler.now };

    fn depth(&self) -> u32 {
        self.settler.depth()
    }

    fn settle(
        &self,
        alloc: Global,
        bx: &IBox,
        depth_left: u32,
        path_len: u32,
    ) -> Result<Outcome, Memory> {
        self.settler.settle(alloc, bx, depth_left, path_len)
    }

    ghost dims_fit = { λ s. S.dims_fit s.settler.now };

    ghost depth_fits = { λ s. S.depth_fits s.settler.now };

    ghost fits = { λ s. S.fits s.settler.now };

    ghost keeps_box = { λ s. S.keeps_box s.settler.now };

    ghost ends = { λ s. S.ends s.settler.now };

    ghost sound = { λ s. S.sound s.settler.now };
}

impl<'a, S: Settler> KnowingSettler for Forgetful<'a, S> {
    type Known = Nothing;

    type Room = Nothing;

    ghost use Rattle.pv_tree.specs.KnownHalves.{nothing_holds};

    ghost knows = { λ s k b. nothing_holds k b };

    fn room(&self, _alloc: Global) -> Nothing {
        Nothing
    }

    fn nothing(&self) -> Nothing {
        Nothing
    }

    fn settle_knowing(
        &self,
        alloc: Global,
        _room: &mut Nothing,
        bx: &IBox,
        _known: Nothing,
        depth_left: u32,
        path_len: u32,
    ) -> Result<Settled<Nothing>, Memory> {
        let outcome = self.settler.settle(alloc, bx, depth_left, path_len)?;
        Ok(Settled {
            outcome,
            known: Nothing,
        })
    }
}
