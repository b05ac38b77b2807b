ghost use Rattle.std.specs.Prelude.{◌≡◌, ◌++◌, decimal, is_ok, if◌then◌else◌};

use itoa::Buffer;
use std::alloc::AllocError;

/// Appends a number in decimal.
pub fn push_decimal(out: &mut Vec<u8>, n: u64) -> Result<(), AllocError>
    ensures { out.new.items ≡ (if is_ok result then out.old.items ++ decimal n else out.old.items) }
{
    let mut digits = Buffer::new();
    out.extend_from_slice(digits.format(n).as_bytes())
}
