//! When a share is done.
ghost use Rattle.std.specs.Prelude.{◌≡◌, ◌↔◌, IsTrue, length, IfOk};
ghost use Rattle.pv_scope.specs.Settlings.{IsClosed};

use pv_num::Memory;
use pv_pool::Gate;
use pv_scope::{Share, Shared, settle_share};
use pv_tree::{KnowingSettler, Paving};
use std::alloc::Global;

/// A share is done exactly where no leaf at or below it is open.
pub fn close_part<S: KnowingSettler, G: Gate>(
    alloc: Global,
    settler: &S,
    opening: Paving,
    share: Share,
    budget: u64,
    gate: &G,
) -> Result<Shared, Memory>
    requires dims { length opening.root ≡ S.dims settler.now }
    ensures { IfOk result (λ s. IsTrue s.done ↔
        IsClosed share.number share.of opening.tree s.paving.tree) }
{
    settle_share(alloc, settler, opening, share, budget, gate)
}
