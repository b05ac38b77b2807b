//! Offering the open leaves of a stage.
ghost use Rattle.std.specs.Prelude.{◌≡◌, ◌+◌, ◌≤◌, ◌<◌, ◌++◌, [], ◌∷◌, length, vec_len, vec_capacity, map, take};
ghost use Rattle.pv_board.specs.Events.{free_units, fresh};
ghost use Rattle.pv_board.specs.Leaves.{HasRoom, AreOffered};
ghost use Rattle.pv_tree.specs.declared.batch.TheConstants.{MOST_BATCH};

use crate::leaves::Leaves;
use crate::ticket::Ticket;
use pv_tree::{Batch, Path};

/// Offers one leaf, and puts its ticket into the batch.
fn deal_one(leaves: &mut Leaves, at: Path, children: &mut Batch<Ticket>)
    requires few { vec_len leaves.old.free < vec_capacity leaves.old.free }
    requires room { HasRoom leaves.old }
    requires batch { length children.old < MOST_BATCH }
    ensures offered { AreOffered leaves.old leaves.new (at ∷ []) }
    ensures tickets { children.new ≡
        children.old ++ map fresh (take (free_units leaves.old.stopped leaves.old.left) (at ∷ [])) }
{
    if let Some(ticket) = leaves.offer(at) {
        children.push(ticket);
    }
}

/// Offers leaves in their order, and puts their tickets into the batch.
pub(crate) fn deal(leaves: &mut Leaves, paths: &[Path], children: &mut Batch<Ticket>)
    requires free { vec_len leaves.old.free + length paths.now ≤ vec_capacity leaves.old.free }
    requires batch { length children.old + length paths.now ≤ MOST_BATCH }
    requires room { HasRoom leaves.old }
    ensures offered { AreOffered leaves.old leaves.new paths.now }
    ensures tickets { children.new ≡ children.old ++ map fresh
        (take (free_units leaves.old.stopped leaves.old.left) paths.now) }
{
    for i in 0..paths.len() {
        deal_one(leaves, paths[i], children);
    }
}
