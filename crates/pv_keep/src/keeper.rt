//! What keeps rows under names, and why it can't.
ghost use Rattle.std.specs.Prelude.{◌≡◌, ◌≢◌, ℕ, ◌≤◌, List, [], Option, Some, None, Err, IsSome, OnOk, OnErr, IsErrOf};
ghost use Rattle.pv_io.specs.Outside.{Rose};
ghost use Rattle.pv_keep.specs.Rows.{AreDistinct};
ghost use Rattle.pv_keep.specs.Keeping.{Kept, IsBegun, HasOther, MayBeThere, IsOrdered, AreAll, AreTooMany, MayBeNew, with_rows};

use crate::row::{RowRefused, Rows};
use pv_io::IoRefused;
use pv_num::Memory;
use std::alloc::{AllocError, AllocFailed};

/// Why a name wasn't begun.
#[derive(Clone, Copy, Debug, PartialEq, Eq)]
pub enum BeginRefused {
    /// The outside failed.
    Failed,
    /// There was no memory.
    Memory,
    /// The name has another identity, which is `kept`.
    OtherIdentity { kept: [u8; 32] },
}

/// Why rows weren't loaded.
#[derive(Clone, Copy, Debug, PartialEq, Eq)]
pub enum LoadRefused {
    /// The outside failed.
    Failed,
    /// There was no memory.
    Memory,
    /// There are more rows than the limit.
    TooMany,
}

/// Why rows weren't kept.
pub type KeepRefused = IoRefused;

impl From<AllocError> for BeginRefused {
    ghost use Rattle.pv_keep.specs.declared.keeper.BeginRefused.TheVariants.{Memory};

    ghost from_gives = { λ _ e. e ≡ Memory };

    fn from(_: AllocError) -> Self {
        BeginRefused::Memory
    }
}

impl From<Memory> for LoadRefused {
    ghost use Rattle.pv_keep.specs.declared.keeper.LoadRefused.TheVariants.{Memory};

    ghost from_gives = { λ _ e. e ≡ Memory };

    fn from(_: Memory) -> Self {
        LoadRefused::Memory
    }
}

impl From<RowRefused> for LoadRefused {
    ghost use Rattle.pv_keep.specs.declared.keeper.LoadRefused.TheVariants.{Memory};

    ghost from_gives = { λ _ e. e ≡ Memory };

    fn from(_: RowRefused) -> Self {
        LoadRefused::Memory
    }
}

/// Keeps an identity and rows under each name.
pub trait Keeper {
    /// The name that is begun.
    ghost begun: { Self → Option (List ℕ) };

    /// What the keeper tells of a name.
    ghost kept: { Self → List ℕ → Kept };

    /// How often the outside has failed, up to 2^64 - 1.
    ghost faults: { Self → ℕ };

    /// Begins a name: what follows is said of it. An absent name is there from now on with this
    /// identity and no rows. After a refusal no name is begun.
    fn begin(&mut self, name: &str, identity: [u8; 32]) -> Result<(), BeginRefused>
        ensures begun { OnOk result (begun self.new ≡ Some name.now) }
        ensures there { OnOk result
            (IsBegun (kept self.old name.now) (kept self.new name.now) identity) }
        ensures other { (found : List ℕ) → result ≡ Err (BeginRefused.OtherIdentity found)
            → HasOther (kept self.old name.now) identity found }
        ensures none { OnErr result (begun self.new ≡ None) }
        ensures unchanged { OnErr result (kept self.new name.now ≡ kept self.old name.now) }
        ensures others { (other : List ℕ)
            → other ≢ name.now → kept self.new other ≡ kept self.old other }
        ensures cause { IsErrOf result BeginRefused.Failed →
            Rose (faults self.old) (faults self.new) }
        ensures no_fault { IsErrOf result BeginRefused.Memory → faults self.new ≡ faults self.old }
        ensures counts_on { faults self.old ≤ faults self.new };

    /// Puts the rows of the name that is begun into an empty list, if there are at most `limit`.
    /// Where there are more, the first `limit + 1` are put there, and every other refusal leaves
    /// the list empty.
    fn load(&mut self, limit: u64, into: &mut Rows) -> Result<(), LoadRefused>
        requires begun { IsSome (begun self.old) }
        requires there { (name : List ℕ) → begun self.old ≡ Some name →
            MayBeThere (kept self.old name) }
        requires empty { into.old ≡ [] }
        ensures all { (name : List ℕ) → begun self.old ≡ Some name
            → OnOk result (AreAll (kept self.old name) limit into.new) }
        ensures too_many { (name : List ℕ) → begun self.old ≡ Some name
            → IsErrOf result LoadRefused.TooMany → AreTooMany (kept self.old name) limit into.new }
        ensures ordered { (name : List ℕ) → begun self.old ≡ Some name
            → OnOk result (IsOrdered (kept self.old name)) }
        ensures empty_failed { IsErrOf result LoadRefused.Failed → into.new ≡ [] }
        ensures empty_memory { IsErrOf result LoadRefused.Memory → into.new ≡ [] }
        ensures begun { begun self.new ≡ begun self.old }
        ensures unchanged { (name : List ℕ) → kept self.new name ≡ kept self.old name }
        ensures cause { IsErrOf result LoadRefused.Failed →
            Rose (faults self.old) (faults self.new) }
        ensures no_fault { IsErrOf result LoadRefused.Memory → faults self.new ≡ faults self.old }
        ensures counts_on { faults self.old ≤ faults self.new };

    /// Keeps further rows of the name that is begun. After a refusal all rows are as before.
    fn save(&mut self, rows: &Rows) -> Result<(), IoRefused>
        requires begun { IsSome (begun self.old) }
        requires there { (name : List ℕ) → begun self.old ≡ Some name →
            MayBeThere (kept self.old name) }
        requires distinct { AreDistinct rows.now }
        requires new { (name : List ℕ) → begun self.old ≡ Some name →
            MayBeNew (kept self.old name) rows.now }
        ensures saved { (name : List ℕ) → begun self.old ≡ Some name
            → OnOk result (kept self.new name ≡ with_rows (kept self.old name) rows.now) }
        ensures unchanged { (name : List ℕ) → begun self.old ≡ Some name
            → OnErr result (kept self.new name ≡ kept self.old name) }
        ensures others { (name other : List ℕ) → begun self.old ≡ Some name
            → other ≢ name → kept self.new other ≡ kept self.old other }
        ensures begun { begun self.new ≡ begun self.old }
        ensures cause { IsErrOf result IoRefused.Failed →
            Rose (faults self.old) (faults self.new) }
        ensures no_fault { IsErrOf result IoRefused.Memory → faults self.new ≡ faults self.old }
        ensures counts_on { faults self.old ≤ faults self.new };
}
