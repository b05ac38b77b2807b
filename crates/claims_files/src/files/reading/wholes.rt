//! Which pavings are read.
ghost use Rattle.std.specs.Prelude.{◌≡◌, ◌≤◌, MatchResult};
ghost use Rattle.pv_tree.specs.Trees.{Tree};
ghost use Rattle.pv_file.specs.Readings.{IsTextOf, IsPavingInFormat, settled_count};

use pv_box::IBox;
use pv_file::{FileRefused, read_within};
use pv_tree::{NodeLimit, Paving};
use std::alloc::Global;

/// Each paving within the limit is read.
pub fn read_each(
    alloc: Global,
    bytes: &[u8],
    identity: [u8; 32],
    root: &IBox,
    limit: NodeLimit,
) -> Result<Paving, FileRefused>
    ensures { (t : Tree) → IsPavingInFormat root.now t → settled_count t ≤ limit
        → IsTextOf bytes.now identity root.now t
        → MatchResult result (λ p. p.tree ≡ t) (λ e. e ≡ FileRefused.Memory) }
{
    read_within(alloc, bytes, identity, root, limit)
}
