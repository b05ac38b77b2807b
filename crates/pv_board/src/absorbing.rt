//! Absorbing a stage: what it settles below the free leaves of a paving.
ghost use Rattle.std.specs.Prelude.{◌≡◌, ◌++◌, ◌≤◌, OnOk, IfOk, IsSome, ℕ, List, Bool, vec_capacity};
ghost use Rattle.pv_tree.specs.Trees.{leaf, subtree, graft, box_of, opens, settled_of};
ghost use Rattle.pv_board.specs.Marks.{weigh};
ghost use Rattle.pv_board.specs.Absorbing.{CanFill, filled, filling, part_at, CanPileAll};

use crate::board::is_absent;
use crate::pile::pile;
use pv_join::{JoinRefused, overlay};
use pv_num::Memory;
use pv_tree::{Path, Paving};
use std::alloc::Global;

/// Why a stage was not absorbed. The board is as it was.
#[derive(Drop)]
pub enum AbsorbRefused {
    /// Want of memory.
    Memory,
    /// So many nodes would be settled. With what is issued, granted and left that is more than
    /// the limit.
    TreeLimit { settled: u64 },
}

impl From<Memory> for AbsorbRefused {
    ghost use Rattle.std.specs.Prelude.{◌≡◌};
    ghost use Rattle.pv_board.specs.declared.absorbing.AbsorbRefused.TheVariants as refused;

    ghost from_gives = { λ _ r. r ≡ refused.Memory };

    fn from(_: Memory) -> AbsorbRefused {
        AbsorbRefused::Memory
    }
}

/// Puts what a stage has at an open leaf in the leaf's place.
fn fill(alloc: Global, joined: &mut Paving, stage: &Paving, path: Path) -> Result<(), Memory>
    requires open { subtree joined.old.tree path ≡ Some leaf }
    requires one_box { IsSome (subtree stage.now.tree path) →
        box_of joined.old.root joined.old.tree path ≡ box_of stage.now.root stage.now.tree path }
    ensures root { joined.new.root ≡ joined.old.root }
    ensures tree { OnOk result (joined.new.tree ≡
        graft joined.old.tree path (part_at stage.now.tree path)) }
{
    if is_absent(stage.shape_at(path)) {
        return Ok(());
    }
    match overlay(alloc, joined, stage, path) {
        Ok(()) => Ok(()),
        Err(JoinRefused::Memory) => Err(Memory),
        Err(JoinRefused::Disagree { .. }) => unreachable!(),
    }
}

/// Puts what a stage has at open leaves in the leaves' places.
pub(crate) fn fill_all(
    alloc: Global,
    joined: &mut Paving,
    stage: &Paving,
    free: &[Path],
) -> Result<(), Memory>
    requires { CanFill joined.old stage.now free.now }
    ensures root { joined.new.root ≡ joined.old.root }
    ensures tree { OnOk result (joined.new.tree ≡
        filled joined.old.tree (filling stage.now.tree free.now)) }
{
    for i in 0..free.len() {
        fill(alloc, joined, stage, free[i])?;
    }
    Ok(())
}

/// The open leaves below some nodes of a paving, with room for so many.
pub(crate) fn leaves_below(
    alloc: Global,
    paving: &Paving,
    nodes: &[Path],
    room: usize,
) -> Result<Vec<Path>, Memory>
    requires { CanPileAll paving.now.tree nodes.now room }
    ensures leaves { IfOk result (λ v. (f : List Bool → ℕ) → weigh f v.items ≡
        weigh (λ p. weigh (λ q. f (p ++ q)) (opens (part_at paving.now.tree p))) nodes.now) }
    ensures room { IfOk result (λ v. room ≤ vec_capacity v) }
{
    let _places = paving.dims();
    let mut leaves = Vec::with_capacity(alloc, room)?;
    for i in 0..nodes.len() {
        let path = nodes[i];
        pile(paving, path, path, &mut leaves);
    }
    Ok(leaves)
}
