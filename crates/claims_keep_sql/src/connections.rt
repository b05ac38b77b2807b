//! What a keeper over a connection promises.
ghost use Rattle.std.specs.Prelude.{◌≡◌, Some, OnOk, IsErrOf};
ghost use Rattle.pv_keep_sql.specs.Keepers.{begun_in, faults_in};

use pv_keep::{BeginRefused, Keeper};
use pv_keep_sql::ConnectionKeeper;
use sqlite::Alter;

/// A name that is answered as begun is begun. Want of memory is no fault.
pub fn begin<S: Alter>(
    keeper: &mut ConnectionKeeper<S>,
    name: &str,
    identity: [u8; 32],
) -> Result<(), BeginRefused>
    ensures begun { OnOk result (begun_in keeper.new ≡ Some name.now) }
    ensures no_fault { IsErrOf result BeginRefused.Memory → faults_in keeper.new ≡
        faults_in keeper.old }
{
    keeper.begin(name, identity)
}
