//! Why the outside didn't do something.
ghost use Rattle.std.specs.Prelude.{◌≡◌};

use pv_num::Memory;
use std::alloc::AllocError;

/// Why the outside didn't take or keep something.
#[derive(Clone, Copy, Debug, PartialEq, Eq)]
pub enum IoRefused {
    /// The outside failed.
    Failed,
    /// There was no memory, and nothing was taken or changed.
    Memory,
}

impl From<AllocError> for IoRefused {
    ghost use Rattle.pv_io.specs.declared.refused.IoRefused.TheVariants.{Memory};

    ghost from_gives = { λ _ e. e ≡ Memory };

    fn from(_: AllocError) -> Self {
        IoRefused::Memory
    }
}

impl From<Memory> for IoRefused {
    ghost use Rattle.pv_io.specs.declared.refused.IoRefused.TheVariants.{Memory};

    ghost from_gives = { λ _ e. e ≡ Memory };

    fn from(_: Memory) -> Self {
        IoRefused::Memory
    }
}
