//! What is read of the outside.
ghost use Rattle.std.specs.Prelude.{◌≡◌, ◌+◌, [], length, OnOk, IsErrOf};
ghost use Rattle.std.specs.Io.KnownBytes.{Consumes};

use pv_io::{FetchRefused, read_up_to};
use std::io::Read;

/// Of too long a text one byte more than the limit is read. All bytes that are read are handed out.
pub fn read_text<F: Read>(file: &mut F, limit: u64, into: &mut Vec<u8>) -> Result<(), FetchRefused>
    requires { into.old.items ≡ [] }
    ensures too_long { IsErrOf result FetchRefused.TooLong → length into.new.items ≡ limit + 1 }
    ensures read { OnOk result (Consumes (F.remaining file.old)
        (F.remaining file.new) into.new.items) }
{
    read_up_to(file, limit, into)
}
