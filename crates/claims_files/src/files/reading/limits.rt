//! How much is read.
ghost use Rattle.std.specs.Prelude.{◌≡◌, ◌≤◌, IfOk};
ghost use Rattle.pv_tree.specs.declared.limit.TheConstants.{LEAST_LIMIT};
ghost use Rattle.pv_file.specs.Readings.{settled_count};
ghost use Rattle.pv_file.specs.Lengths.{length_limit};

use pv_box::IBox;
use pv_file::{FileRefused, most_bytes, read, read_within};
use pv_tree::{NodeLimit, Paving};
use std::alloc::Global;

/// So long a file is read.
pub fn longest(limit: NodeLimit) -> u64
    ensures { result ≡ length_limit limit }
{
    most_bytes(limit)
}

/// Where no limit is given, there are at most 100,000 settled nodes.
pub fn read_small(
    alloc: Global,
    bytes: &[u8],
    identity: [u8; 32],
    root: &IBox,
) -> Result<Paving, FileRefused>
    ensures { IfOk result (λ p. settled_count p.tree ≤ LEAST_LIMIT) }
{
    read(alloc, bytes, identity, root)
}

/// There are at most as many settled nodes as the limit.
pub fn read_few(
    alloc: Global,
    bytes: &[u8],
    identity: [u8; 32],
    root: &IBox,
    limit: NodeLimit,
) -> Result<Paving, FileRefused>
    ensures { IfOk result (λ p. settled_count p.tree ≤ limit) }
{
    read_within(alloc, bytes, identity, root, limit)
}
