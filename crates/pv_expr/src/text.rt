//! Bytes and digits at the end of a text.
ghost use Rattle.std.specs.Prelude.{◌≡◌, ◌++◌, decimal, OnOk};

use itoa::Buffer;
use pv_num::Memory;

/// Appends bytes.
pub fn put(out: &mut Vec<u8>, bytes: &[u8]) -> Result<(), Memory>
    ensures { OnOk result (out.new.items ≡ out.old.items ++ bytes.now) }
{
    out.extend_from_slice(bytes)?;
    Ok(())
}

/// Appends a whole number in decimal.
pub fn put_number(out: &mut Vec<u8>, n: u64) -> Result<(), Memory>
    ensures { OnOk result (out.new.items ≡ out.old.items ++ decimal n) }
{
    let mut digits = Buffer::new();
    put(out, digits.format(n).as_bytes())
}
