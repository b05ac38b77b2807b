//! What settling works in.
ghost use Rattle.std.specs.Prelude.{◌≡◌, ◌≤◌, [], length, IfOk};
ghost use Rattle.pv_box.specs.declared.boxes.TheConstants.{MOST_PLACES};

use crate::knowing::KnowingSettler;
use pv_box::IBox;
use pv_interval::Interval;
use pv_num::Memory;
use std::alloc::Global;

/// What is kept from one settling to the next, and from one tree to the next, so that settling
/// takes no memory but for the tree.
#[derive(Drop)]
pub struct Workspace<S: KnowingSettler> {
    /// The box that is settled.
    pub scratch: IBox,
    pub room: S::Room,
    /// What is known of the leaves that are to come, that of the next one last.
    pub facts: Vec<S::Known>,
}

impl<S: KnowingSettler> Workspace<S> {
    /// A workspace for boxes of `places` places.
    pub fn of(alloc: Global, settler: &S, places: u8) -> Result<Workspace<S>, Memory>
        requires some { 1 ≤ places }
        requires few { places ≤ MOST_PLACES }
        ensures places { IfOk result (λ w. length w.scratch ≡ places) }
    {
        Ok(Workspace {
            scratch: blank(alloc, places)?,
            room: settler.room(alloc),
            facts: Vec::new(alloc),
        })
    }
}

/// A box of `places` places.
pub fn blank(alloc: Global, places: u8) -> Result<IBox, Memory>
    requires some { 1 ≤ places }
    requires few { places ≤ MOST_PLACES }
    ensures { IfOk result (λ b. length b ≡ places) }
{
    let mut parts = Vec::new(alloc);
    for _ in 0..places {
        parts.push(Interval::ALL)?;
    }
    Ok(IBox::new(parts))
}
