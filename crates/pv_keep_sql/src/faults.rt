//! Why a database gives no answer, and how often.
ghost use Rattle.pv_keep_sql.specs.Counting.{IsCounted};

use pv_io::IoRefused;
use pv_keep::{BeginRefused, LoadRefused, RowRefused};
use pv_num::Memory;
use sqlite::{Error, ErrorCode};
use std::alloc::AllocError;

/// Why a database gave no answer.
#[derive(Clone, Copy)]
pub(crate) enum Refused {
    /// For another cause than memory.
    Failed,
    /// There was no memory.
    Memory,
}

impl From<Error> for Refused {
    ghost use Rattle.std.specs.Prelude.{◌≡◌};
    ghost use Rattle.pv_keep_sql.specs.Counting.{refusal_of};

    ghost from_gives = { λ e r. r ≡ refusal_of e };

    fn from(error: Error) -> Self {
        match error {
            Error::SqliteFailure(ErrorCode::OutOfMemory) => Refused::Memory,
            _ => Refused::Failed,
        }
    }
}

impl From<AllocError> for Refused {
    ghost use Rattle.std.specs.Prelude.{◌≡◌};
    ghost use Rattle.pv_keep_sql.specs.declared.faults.Refused.TheVariants as refused;

    ghost from_gives = { λ _ r. r ≡ refused.Memory };

    fn from(_: AllocError) -> Self {
        Refused::Memory
    }
}

impl From<Memory> for Refused {
    ghost use Rattle.std.specs.Prelude.{◌≡◌};
    ghost use Rattle.pv_keep_sql.specs.declared.faults.Refused.TheVariants as refused;

    ghost from_gives = { λ _ r. r ≡ refused.Memory };

    fn from(_: Memory) -> Self {
        Refused::Memory
    }
}

impl From<RowRefused> for Refused {
    ghost use Rattle.std.specs.Prelude.{◌≡◌};
    ghost use Rattle.pv_keep_sql.specs.declared.faults.Refused.TheVariants as refused;

    ghost from_gives = { λ _ r. r ≡ refused.Memory };

    fn from(_: RowRefused) -> Self {
        Refused::Memory
    }
}

impl From<Refused> for BeginRefused {
    ghost use Rattle.std.specs.Prelude.{◌≡◌};
    ghost use Rattle.pv_keep_sql.specs.Counting.{begin_refusal};

    ghost from_gives = { λ r e. e ≡ begin_refusal r };

    fn from(refused: Refused) -> Self {
        match refused {
            Refused::Failed => BeginRefused::Failed,
            Refused::Memory => BeginRefused::Memory,
        }
    }
}

impl From<Refused> for LoadRefused {
    ghost use Rattle.std.specs.Prelude.{◌≡◌};
    ghost use Rattle.pv_keep_sql.specs.Counting.{load_refusal};

    ghost from_gives = { λ r e. e ≡ load_refusal r };

    fn from(refused: Refused) -> Self {
        match refused {
            Refused::Failed => LoadRefused::Failed,
            Refused::Memory => LoadRefused::Memory,
        }
    }
}

impl From<Refused> for IoRefused {
    ghost use Rattle.std.specs.Prelude.{◌≡◌};
    ghost use Rattle.pv_keep_sql.specs.Counting.{keep_refusal};

    ghost from_gives = { λ r e. e ≡ keep_refusal r };

    fn from(refused: Refused) -> Self {
        match refused {
            Refused::Failed => IoRefused::Failed,
            Refused::Memory => IoRefused::Memory,
        }
    }
}

/// A count of faults with a further refusal: want of memory counts nothing. It stops at 2^64 - 1.
pub(crate) fn counted(faults: u64, refused: Refused) -> u64
    ensures { IsCounted refused faults result }
{
    match refused {
        Refused::Failed => faults.saturating_add(1),
        Refused::Memory => faults,
    }
}
