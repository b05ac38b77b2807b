//! What a paving may take.
ghost use Rattle.std.specs.Prelude.{◌≤◌};
ghost use Rattle.pv_tree.specs.declared.limit.TheConstants.{MOST_WORKERS};

use pv_tree::NodeLimit;

/// How many nodes are settled at most, within a limit on the whole tree, and by how many workers.
#[derive(Clone, Copy)]
pub struct Budget {
    /// How many more nodes are settled at most: 1 to `limit`.
    pub nodes: u64,
    /// The most settled nodes that the tree may have.
    pub limit: NodeLimit,
    /// 1 to `MOST_WORKERS`.
    pub workers: u32,
    ghost some: { 1 ≤ nodes },
    ghost few: { nodes ≤ limit },
    ghost one: { 1 ≤ workers },
    ghost sixteen: { workers ≤ MOST_WORKERS },
}
