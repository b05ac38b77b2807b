//! What folders hold, and what they count.
ghost use Rattle.std.specs.Prelude.{◌≡◌, [], OnOk, IsErrOf};
ghost use Rattle.pv_io.specs.Outside.{Rose, IsTooLong, MayBeAbsent, IsOldOrNew, stored};
ghost use Rattle.pv_io.specs.Real.{real_fetch_faults};
ghost use Rattle.pv_io.specs.Shelf.{kept, kept_in};

use pv_io::{FetchRefused, Folder, IoRefused, MemFolder, PlainFolder, RealFolder};

/// What is stored is then held, whole.
pub fn keep(plain: &mut PlainFolder, name: &str, bytes: &[u8]) -> Result<(), IoRefused>
    ensures { OnOk result (kept plain.new name.now ≡ stored (kept plain.old name.now) bytes.now) }
{
    plain.store(name, bytes)
}

/// Where a store fails, the name has its old content or the new one, whole.
pub fn keep_or_fail(failing: &mut MemFolder, name: &str, bytes: &[u8]) -> Result<(), IoRefused>
    ensures { IsErrOf result IoRefused.Failed
        → IsOldOrNew (kept_in failing.old name.now) (kept_in failing.new name.now) bytes.now }
{
    failing.store(name, bytes)
}

/// Of too long a content the first bytes are handed out, one more than the limit. A name is absent
/// only where nothing is held.
pub fn find(
    plain: &mut PlainFolder,
    name: &str,
    limit: u64,
    into: &mut Vec<u8>,
) -> Result<(), FetchRefused>
    requires { into.old.items ≡ [] }
    ensures too_long { IsErrOf result FetchRefused.TooLong
        → IsTooLong (kept plain.old name.now) limit into.new.items }
    ensures absent { IsErrOf result FetchRefused.Absent → MayBeAbsent (kept plain.old name.now) }
{
    plain.fetch(name, limit, into)
}

/// A fetch that fails is counted.
pub fn find_outside(
    real: &mut RealFolder<'_>,
    name: &str,
    limit: u64,
    into: &mut Vec<u8>,
) -> Result<(), FetchRefused>
    requires { into.old.items ≡ [] }
    ensures { IsErrOf result FetchRefused.Failed
        → Rose (real_fetch_faults real.old) (real_fetch_faults real.new) }
{
    real.fetch(name, limit, into)
}
