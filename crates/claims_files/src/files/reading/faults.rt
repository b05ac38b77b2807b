//! Which line is called bad.
ghost use Rattle.std.specs.Prelude.{◌≡◌, ℕ, Err};
ghost use Rattle.pv_file.specs.Readings.{IsFirstBadLine};

use pv_box::IBox;
use pv_file::{FileRefused, read_within};
use pv_tree::{NodeLimit, Paving};
use std::alloc::Global;

/// The line that is told is the first bad one.
pub fn find_bad_line(
    alloc: Global,
    bytes: &[u8],
    identity: [u8; 32],
    root: &IBox,
    limit: NodeLimit,
) -> Result<Paving, FileRefused>
    ensures { (n : ℕ) → result ≡ Err (FileRefused.BadLine n)
        → IsFirstBadLine limit n bytes.now identity root.now }
{
    read_within(alloc, bytes, identity, root, limit)
}
