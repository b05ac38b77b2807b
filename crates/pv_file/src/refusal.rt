//! Why a paving file isn't read.
ghost use Rattle.std.specs.Prelude.{◌≡◌};

use pv_num::Memory;
use pv_tree::PutRefused;
use std::alloc::{AllocError, AllocFailed};

/// Why bytes are no paving file for an identity and a root box.
#[derive(Clone, Copy, Debug, PartialEq, Eq)]
pub enum FileRefused {
    /// The file is that of another identity.
    WrongIdentity,
    /// The line with this number, counted from 1, is the first that no such file has there.
    BadLine { line: u64 },
    /// The line with this number, counted from 1, is the first of a settled node too many.
    TooManyNodes { line: u64 },
    /// There was no memory.
    Memory,
}

impl From<Memory> for FileRefused {
    ghost use Rattle.pv_file.specs.declared.refusal.FileRefused.TheVariants.{Memory};

    ghost from_gives = { λ _ e. e ≡ Memory };

    fn from(_: Memory) -> Self {
        FileRefused::Memory
    }
}

impl From<AllocError> for FileRefused {
    ghost use Rattle.pv_file.specs.declared.refusal.FileRefused.TheVariants.{Memory};

    ghost from_gives = { λ _ e. e ≡ Memory };

    fn from(_: AllocError) -> Self {
        FileRefused::Memory
    }
}

impl From<PutRefused> for FileRefused {
    ghost use Rattle.pv_file.specs.declared.refusal.FileRefused.TheVariants.{Memory};

    ghost from_gives = { λ _ e. e ≡ Memory };

    fn from(_: PutRefused) -> Self {
        FileRefused::Memory
    }
}
