//! Named files, and why one can't be read or kept.
ghost use Rattle.std.specs.Prelude.{◌≡◌, ◌≢◌, ℕ, ◌≤◌, List, [], OnOk, IsErrOf, IsTrue};
ghost use Rattle.pv_io.specs.Outside.{Rose, Content, IsWhole, IsTooLong, MayBeAbsent, IsOldOrNew, untold, stored};

use crate::refused::IoRefused;
use std::alloc::{AllocError, AllocFailed};

/// Why a folder didn't hand out the content of a name.
#[derive(Clone, Copy, Debug, PartialEq, Eq)]
pub enum FetchRefused {
    /// There is no such name.
    Absent,
    /// The outside failed.
    Failed,
    /// The content is longer than the limit.
    TooLong,
    /// There was no memory.
    Memory,
}

impl From<AllocError> for FetchRefused {
    ghost use Rattle.pv_io.specs.declared.folder.FetchRefused.TheVariants.{Memory};

    ghost from_gives = { λ _ e. e ≡ Memory };

    fn from(_: AllocError) -> Self {
        FetchRefused::Memory
    }
}

/// Why a folder didn't keep bytes under a name. Where the outside failed, the name has its old content
/// or the new one, whole, where the folder tells it.
pub type StoreRefused = IoRefused;

/// Named files.
pub trait Folder {
    /// What the folder tells of a name.
    ghost content: { Self → List ℕ → Content };

    /// How often a fetch has failed, up to 2^64 - 1.
    ghost fetch_faults: { Self → ℕ };

    /// How often a store has failed, up to 2^64 - 1.
    ghost store_faults: { Self → ℕ };

    /// Puts the whole content of a name into an empty list, if it has at most `limit` bytes. A
    /// longer content leaves its first `limit + 1` bytes there, and every other refusal leaves the
    /// list empty.
    fn fetch(&mut self, name: &str, limit: u64, into: &mut Vec<u8>) -> Result<(), FetchRefused>
        requires { into.old.items ≡ [] }
        ensures whole { OnOk result (IsWhole (content self.old name.now) limit into.new.items) }
        ensures too_long { IsErrOf result FetchRefused.TooLong
            → IsTooLong (content self.old name.now) limit into.new.items }
        ensures absent { IsErrOf result FetchRefused.Absent
            → MayBeAbsent (content self.old name.now) }
        ensures cause { IsErrOf result FetchRefused.Failed
            → Rose (fetch_faults self.old) (fetch_faults self.new) }
        ensures empty_absent { IsErrOf result FetchRefused.Absent → into.new.items ≡ [] }
        ensures empty_failed { IsErrOf result FetchRefused.Failed → into.new.items ≡ [] }
        ensures empty_memory { IsErrOf result FetchRefused.Memory → into.new.items ≡ [] }
        ensures no_fault { IsErrOf result FetchRefused.Memory
            → fetch_faults self.new ≡ fetch_faults self.old }
        ensures unchanged { (other : List ℕ) → content self.new other ≡ content self.old other }
        ensures counts_on { fetch_faults self.old ≤ fetch_faults self.new }
        ensures no_store_fault { store_faults self.new ≡ store_faults self.old };

    /// Makes the bytes the content of a name.
    fn store(&mut self, name: &str, bytes: &[u8]) -> Result<(), IoRefused>
        ensures whole { OnOk result (content self.new name.now ≡
            stored (content self.old name.now) bytes.now) }
        ensures cause { IsErrOf result IoRefused.Failed
            → Rose (store_faults self.old) (store_faults self.new) }
        ensures old_or_new { IsErrOf result IoRefused.Failed
            → IsOldOrNew (content self.old name.now) (content self.new name.now) bytes.now }
        ensures unchanged { IsErrOf result IoRefused.Memory
            → content self.new name.now ≡ content self.old name.now }
        ensures no_fault { IsErrOf result IoRefused.Memory
            → store_faults self.new ≡ store_faults self.old }
        ensures others { (other : List ℕ)
            → other ≢ name.now → content self.new other ≡ content self.old other }
        ensures counts_on { store_faults self.old ≤ store_faults self.new }
        ensures no_fetch_fault { fetch_faults self.new ≡ fetch_faults self.old };

    /// Whether two names lead to one file, as far as the folder can tell. Equal names do.
    fn are_one(&self, one: &str, other: &str) -> bool
        ensures equal { one.now ≡ other.now → IsTrue result }
        ensures alike { IsTrue result → content self.now one.now ≡ content self.now other.now }
    {
        one == other
    }

    /// Whether a name leads to a stream to which this program prints. Nothing is told of such a
    /// name.
    fn is_stream(&self, name: &str) -> bool
        ensures { IsTrue result → content self.now name.now ≡ untold }
    {
        false
    }
}
