//! What every keeper promises.
ghost use Rattle.std.specs.Prelude.{◌≡◌, ℕ, List, [], Some, None, Err, IsSome, OnOk, OnErr, IsErrOf};
ghost use Rattle.pv_keep.specs.Rows.{AreDistinct};
ghost use Rattle.pv_keep.specs.Keeping.{IsBegun, HasOther, MayBeThere, AreAll, AreTooMany, MayBeNew, with_rows};

use pv_io::IoRefused;
use pv_keep::{BeginRefused, Keeper, LoadRefused, Rows};

/// A name that is begun was absent, or has this identity. Another identity is the one that is kept,
/// and after a refusal no name is begun.
pub fn begin<P: Keeper>(keeper: &mut P, name: &str, identity: [u8; 32]) -> Result<(), BeginRefused>
    ensures there { OnOk result
        (IsBegun (P.kept keeper.old name.now) (P.kept keeper.new name.now) identity) }
    ensures other { (found : List ℕ) → result ≡ Err (BeginRefused.OtherIdentity found)
        → HasOther (P.kept keeper.old name.now) identity found }
    ensures none { OnErr result (P.begun keeper.new ≡ None) }
{
    keeper.begin(name, identity)
}

/// All rows are loaded where there are no more than the limit, and otherwise the first ones, one
/// more than the limit. A load that fails leaves none.
pub fn load<P: Keeper>(keeper: &mut P, limit: u64, into: &mut Rows) -> Result<(), LoadRefused>
    requires begun { IsSome (P.begun keeper.old) }
    requires there { (name : List ℕ) → P.begun keeper.old ≡ Some name →
        MayBeThere (P.kept keeper.old name) }
    requires empty { into.old ≡ [] }
    ensures all { (name : List ℕ) → P.begun keeper.old ≡ Some name
        → OnOk result (AreAll (P.kept keeper.old name) limit into.new) }
    ensures too_many { (name : List ℕ) → P.begun keeper.old ≡ Some name
        → IsErrOf result LoadRefused.TooMany → AreTooMany (P.kept keeper.old name) limit into.new }
    ensures empty_failed { IsErrOf result LoadRefused.Failed → into.new ≡ [] }
{
    keeper.load(limit, into)
}

/// Further rows come to those that are kept, each at its place.
pub fn save<P: Keeper>(keeper: &mut P, rows: &Rows) -> Result<(), IoRefused>
    requires begun { IsSome (P.begun keeper.old) }
    requires there { (name : List ℕ) → P.begun keeper.old ≡ Some name →
        MayBeThere (P.kept keeper.old name) }
    requires distinct { AreDistinct rows.now }
    requires new { (name : List ℕ) → P.begun keeper.old ≡ Some name →
        MayBeNew (P.kept keeper.old name) rows.now }
    ensures { (name : List ℕ) → P.begun keeper.old ≡ Some name
        → OnOk result (P.kept keeper.new name ≡ with_rows (P.kept keeper.old name) rows.now) }
{
    keeper.save(rows)
}
