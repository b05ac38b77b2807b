//! What a keeper in memory promises of its failures: the calls of its list fail, all else is counted.
ghost use Rattle.std.specs.Prelude.{◌≡◌, ◌↔◌, ℕ, List, [], Some, IsSome, IsErrOf, Contains};
ghost use Rattle.pv_keep.specs.Rows.{AreDistinct};
ghost use Rattle.pv_keep.specs.Keeping.{MayBeThere, MayBeNew};
ghost use Rattle.pv_keep.specs.Shelves.{kept_in, begun_in, turns_of, faults_of, turns_after_begin, faults_after_begin, turns_after_load, faults_after_load, turns_after_save, faults_after_save};

use pv_io::IoRefused;
use pv_keep::{BeginRefused, Keeper, LoadRefused, MemKeeper, Rows};

/// Which beginnings fail, and what is counted.
pub fn begin(keeper: &mut MemKeeper, name: &str, identity: [u8; 32]) -> Result<(), BeginRefused>
    ensures fails { IsErrOf result BeginRefused.Failed
        ↔ Contains (turns_of keeper.old).failing (turns_of keeper.old).next }
    ensures turns { turns_of keeper.new ≡ turns_after_begin result (turns_of keeper.old) }
    ensures faults { faults_of keeper.new ≡ faults_after_begin result (faults_of keeper.old) }
{
    keeper.begin(name, identity)
}

/// Which loads fail, and what is counted.
pub fn load(keeper: &mut MemKeeper, limit: u64, into: &mut Rows) -> Result<(), LoadRefused>
    requires begun { IsSome (begun_in keeper.old) }
    requires there { (name : List ℕ) → begun_in keeper.old ≡ Some name →
        MayBeThere (kept_in keeper.old name) }
    requires empty { into.old ≡ [] }
    ensures fails { IsErrOf result LoadRefused.Failed
        ↔ Contains (turns_of keeper.old).failing (turns_of keeper.old).next }
    ensures turns { turns_of keeper.new ≡ turns_after_load result (turns_of keeper.old) }
    ensures faults { faults_of keeper.new ≡ faults_after_load result (faults_of keeper.old) }
{
    keeper.load(limit, into)
}

/// Which saves fail, and what is counted.
pub fn save(keeper: &mut MemKeeper, rows: &Rows) -> Result<(), IoRefused>
    requires begun { IsSome (begun_in keeper.old) }
    requires there { (name : List ℕ) → begun_in keeper.old ≡ Some name →
        MayBeThere (kept_in keeper.old name) }
    requires distinct { AreDistinct rows.now }
    requires new { (name : List ℕ) → begun_in keeper.old ≡ Some name →
        MayBeNew (kept_in keeper.old name) rows.now }
    ensures fails { IsErrOf result IoRefused.Failed
        ↔ Contains (turns_of keeper.old).failing (turns_of keeper.old).next }
    ensures turns { turns_of keeper.new ≡ turns_after_save result (turns_of keeper.old) }
    ensures faults { faults_of keeper.new ≡ faults_after_save result (faults_of keeper.old) }
{
    keeper.save(rows)
}
