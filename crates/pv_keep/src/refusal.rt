//! Why a campaign isn't opened, or a round not saved.
ghost use Rattle.std.specs.Prelude.{◌≡◌};

use crate::keeper::{BeginRefused, LoadRefused};
use crate::row::RowRefused;
use pv_io::IoRefused;
use pv_num::Memory;
use pv_tree::PutRefused;
use std::alloc::{AllocError, AllocFailed};

/// Why a campaign wasn't opened.
#[derive(Clone, Copy, Debug, PartialEq, Eq)]
pub enum CampaignRefused {
    /// There was no memory.
    Memory,
    /// The keeper failed.
    Failed,
    /// The name has another identity, which is `kept`.
    OtherIdentity { kept: [u8; 32] },
    /// More rows are kept than the limit.
    TooMany,
    /// The row with this number, counted from 0, is the first that is bad.
    BadRow { row: u64 },
}

/// Why a round wasn't saved. The campaign and the kept rows are as before then.
pub type SaveRefused = IoRefused;

impl From<BeginRefused> for CampaignRefused {
    ghost use Rattle.pv_keep.specs.Refusing.{opening_after_begin};

    ghost from_gives = { λ b e. e ≡ opening_after_begin b };

    fn from(refused: BeginRefused) -> Self {
        match refused {
            BeginRefused::Failed => CampaignRefused::Failed,
            BeginRefused::Memory => CampaignRefused::Memory,
            BeginRefused::OtherIdentity { kept } => CampaignRefused::OtherIdentity { kept },
        }
    }
}

impl From<LoadRefused> for CampaignRefused {
    ghost use Rattle.pv_keep.specs.Refusing.{opening_after_load};

    ghost from_gives = { λ l e. e ≡ opening_after_load l };

    fn from(refused: LoadRefused) -> Self {
        match refused {
            LoadRefused::Failed => CampaignRefused::Failed,
            LoadRefused::Memory => CampaignRefused::Memory,
            LoadRefused::TooMany => CampaignRefused::TooMany,
        }
    }
}

impl From<Memory> for CampaignRefused {
    ghost use Rattle.pv_keep.specs.declared.refusal.CampaignRefused.TheVariants.{Memory};

    ghost from_gives = { λ _ e. e ≡ Memory };

    fn from(_: Memory) -> Self {
        CampaignRefused::Memory
    }
}

impl From<PutRefused> for CampaignRefused {
    ghost use Rattle.pv_keep.specs.declared.refusal.CampaignRefused.TheVariants.{Memory};

    ghost from_gives = { λ _ e. e ≡ Memory };

    fn from(_: PutRefused) -> Self {
        CampaignRefused::Memory
    }
}
