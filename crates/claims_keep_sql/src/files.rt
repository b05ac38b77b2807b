//! What a keeper over files promises.
ghost use Rattle.std.specs.Prelude.{IsErrOf};
ghost use Rattle.pv_io.specs.Outside.{Rose};
ghost use Rattle.pv_keep_sql.specs.Keepers.{faults_of_files};

use pv_keep::{BeginRefused, Keeper};
use pv_keep_sql::FileKeeper;

/// A file that fails is counted.
pub fn begin(
    keeper: &mut FileKeeper<'_>,
    name: &str,
    identity: [u8; 32],
) -> Result<(), BeginRefused>
    ensures { IsErrOf result BeginRefused.Failed →
        Rose (faults_of_files keeper.old) (faults_of_files keeper.new) }
{
    keeper.begin(name, identity)
}
