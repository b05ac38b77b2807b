//! Why a campaign does not open.
ghost use Rattle.std.specs.Prelude.{◌≡◌, ℕ, List, Err, IsErrOf};
ghost use Rattle.pv_io.specs.Outside.{Rose};
ghost use Rattle.pv_keep.specs.Keeping.{HasOther};
ghost use Rattle.pv_keep.specs.Campaigns.{HasTooMany};

use pv_box::IBox;
use pv_keep::{Campaign, CampaignRefused, Keeper};
use pv_tree::NodeLimit;
use std::alloc::Global;

/// Too many rows are kept, another identity is, or the keeper failed.
pub fn refuse<P: Keeper>(
    alloc: Global,
    keeper: &mut P,
    name: &str,
    identity: [u8; 32],
    root: IBox,
    limit: NodeLimit,
) -> Result<Campaign, CampaignRefused>
    ensures other { (found : List ℕ) → result ≡ Err (CampaignRefused.OtherIdentity found)
        → HasOther (P.kept keeper.old name.now) identity found }
    ensures too_many { IsErrOf result CampaignRefused.TooMany
        → HasTooMany limit (P.kept keeper.old name.now) identity }
    ensures cause { IsErrOf result CampaignRefused.Failed
        → Rose (P.faults keeper.old) (P.faults keeper.new) }
{
    Campaign::open_within(alloc, keeper, name, identity, root, limit)
}
