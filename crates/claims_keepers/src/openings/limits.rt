//! Which limit a campaign has.
ghost use Rattle.std.specs.Prelude.{◌≡◌, IfOk};
ghost use Rattle.pv_tree.specs.declared.limit.TheConstants.{LEAST_LIMIT};

use pv_box::IBox;
use pv_keep::{Campaign, CampaignRefused, Keeper};
use pv_tree::NodeLimit;
use std::alloc::Global;

/// A campaign has the limit that it is opened with.
pub fn open_limited<P: Keeper>(
    alloc: Global,
    keeper: &mut P,
    name: &str,
    identity: [u8; 32],
    root: IBox,
    limit: NodeLimit,
) -> Result<Campaign, CampaignRefused>
    ensures { IfOk result (λ c. c.limit ≡ limit) }
{
    Campaign::open_within(alloc, keeper, name, identity, root, limit)
}

/// A campaign that is opened with no limit named has the default one.
pub fn open_by_default<P: Keeper>(
    alloc: Global,
    keeper: &mut P,
    name: &str,
    identity: [u8; 32],
    root: IBox,
) -> Result<Campaign, CampaignRefused>
    ensures { IfOk result (λ c. c.limit ≡ LEAST_LIMIT) }
{
    Campaign::open(alloc, keeper, name, identity, root)
}
