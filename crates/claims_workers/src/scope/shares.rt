//! What is settled of a share.
ghost use Rattle.std.specs.Prelude.{◌≡◌, ◌+◌, false, length, IfOk, IfSome};
ghost use Rattle.pv_board.specs.Rules.{settled_in};
ghost use Rattle.pv_scope.specs.Settlings.{LeavesOthers};

use pv_num::Memory;
use pv_pool::Gate;
use pv_scope::{Share, Shared, settle_share};
use pv_tree::{KnowingSettler, Paving};
use std::alloc::Global;

/// A share has the number that was asked for, of so many.
pub fn share_with(number: u64, of: u64) -> Option<Share>
    ensures { IfSome result (λ s. (s.number ≡ number) × (s.of ≡ of)) }
{
    Share::new(number, of)
}

/// Open leaves outside the share stay open. All settlings are counted, and they are the budget where
/// the share is not done.
pub fn settle_part<S: KnowingSettler, G: Gate>(
    alloc: Global,
    settler: &S,
    opening: Paving,
    share: Share,
    budget: u64,
    gate: &G,
) -> Result<Shared, Memory>
    requires dims { length opening.root ≡ S.dims settler.now }
    ensures others { IfOk result (λ s.
        LeavesOthers share.number share.of opening.tree s.paving.tree) }
    ensures settled { IfOk result (λ s.
        settled_in s.paving.tree ≡ settled_in opening.tree + s.settled) }
    ensures spent { IfOk result (λ s. s.done ≡ false → s.settled ≡ budget) }
{
    settle_share(alloc, settler, opening, share, budget, gate)
}
