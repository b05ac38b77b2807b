//! Which text is read.
ghost use Rattle.std.specs.Prelude.{◌≡◌, IfOk};
ghost use Rattle.pv_file.specs.Readings.{IsTextOf};

use pv_box::IBox;
use pv_file::{FileRefused, read_within};
use pv_tree::{NodeLimit, Paving};
use std::alloc::Global;

/// The bytes are the text of the paving, with its identity.
pub fn read_text(
    alloc: Global,
    bytes: &[u8],
    identity: [u8; 32],
    root: &IBox,
    limit: NodeLimit,
) -> Result<Paving, FileRefused>
    ensures { IfOk result (λ p. IsTextOf bytes.now identity root.now p.tree) }
{
    read_within(alloc, bytes, identity, root, limit)
}
