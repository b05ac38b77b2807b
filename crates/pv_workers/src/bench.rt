//! What a worker settles with.
ghost use Rattle.std.specs.Prelude.{◌≡◌, ◌≤◌, [], length, IfOk};
ghost use Rattle.pv_box.specs.declared.boxes.TheConstants.{MOST_PLACES};

use pv_board::Ticket;
use pv_num::Memory;
use pv_tree::{Batch, KnowingSettler, Path, Workspace};
use std::alloc::Global;

/// What a worker keeps from one stage to the next.
#[derive(Drop)]
pub(crate) struct Bench<S: KnowingSettler> {
    pub(crate) workspace: Workspace<S>,
    /// The paths of a stage's open leaves.
    pub(crate) leaves: Vec<Path>,
    /// The tickets of a stage's leaves.
    pub(crate) tickets: Batch<Ticket>,
}

impl<S: KnowingSettler> Bench<S> {
    /// A bench for boxes of `places` places.
    pub(crate) fn of(alloc: Global, settler: &S, places: u8) -> Result<Bench<S>, Memory>
        requires some { 1 ≤ places }
        requires few { places ≤ MOST_PLACES }
        ensures places { IfOk result (λ k. length k.workspace.scratch ≡ places) }
        ensures tickets { IfOk result (λ k. k.tickets ≡ []) }
    {
        Ok(Bench {
            workspace: Workspace::of(alloc, settler, places)?,
            leaves: Vec::new(alloc),
            tickets: Batch::new(alloc)?,
        })
    }
}
