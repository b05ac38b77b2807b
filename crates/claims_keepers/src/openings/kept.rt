//! What opens.
ghost use Rattle.std.specs.Prelude.{IfOk};
ghost use Rattle.pv_keep.specs.Campaigns.{IsOpened};

use pv_box::IBox;
use pv_keep::{Campaign, CampaignRefused, Keeper};
use pv_tree::NodeLimit;
use std::alloc::Global;

/// What opens is the paving of the rows that are kept, no more than the limit.
pub fn open_kept<P: Keeper>(
    alloc: Global,
    keeper: &mut P,
    name: &str,
    identity: [u8; 32],
    root: IBox,
    limit: NodeLimit,
) -> Result<Campaign, CampaignRefused>
    ensures { IfOk result (λ c.
        IsOpened limit (P.kept keeper.old name.now) (P.kept keeper.new name.now)
        identity root c.tree) }
{
    Campaign::open_within(alloc, keeper, name, identity, root, limit)
}
