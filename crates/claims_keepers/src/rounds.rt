//! What saving rounds promises.
ghost use Rattle.std.specs.Prelude.{◌≡◌, ◌+◌, ◌≤◌, ℕ, List, Some, IsSome, IfOk};
ghost use Rattle.pv_tree.specs.Trees.{Tree, opens};
ghost use Rattle.pv_file.specs.Readings.{settled_count};
ghost use Rattle.pv_join.specs.Joins.{IsJoin};
ghost use Rattle.pv_keep.specs.Campaigns.{AreStages, KeepsTree};

use pv_io::IoRefused;
use pv_keep::{Campaign, Frontier, Keeper};
use pv_num::Memory;
use pv_tree::Paving;
use std::alloc::Global;

/// The answer is how many nodes more are settled than before the round.
pub fn save<P: Keeper>(
    campaign: &mut Campaign,
    alloc: Global,
    keeper: &mut P,
    stage: &Paving,
) -> Result<u64, IoRefused>
    requires root { stage.now.root ≡ campaign.old.root }
    requires stages { AreStages campaign.old.root campaign.old.tree stage.now.tree }
    requires few { (t : Tree) → IsJoin campaign.old.tree stage.now.tree t →
        settled_count t ≤ campaign.old.limit }
    requires begun { IsSome (P.begun keeper.old) }
    requires kept { (name : List ℕ) → P.begun keeper.old ≡ Some name
        → KeepsTree (P.kept keeper.old name) campaign.old.tree }
    ensures { IfOk result (λ n. settled_count campaign.new.tree ≡
        settled_count campaign.old.tree + n) }
{
    campaign.save_round(alloc, keeper, stage)
}

/// Only what stands at and below leaves that were open is new.
pub fn open_leaves(alloc: Global, paving: &Paving) -> Result<Frontier, Memory>
    ensures { IfOk result (λ f. f ≡ opens paving.now.tree) }
{
    Frontier::of(alloc, paving)
}
