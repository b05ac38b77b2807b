//! How large a tree may become, and how many workers may make it.
ghost use Rattle.std.specs.Prelude.{◌≡◌, None, IfSome};
ghost use Rattle.pv_tree.specs.Limits.{IsLimit};

use std::marker::Model;

/// The least limit on settled nodes, which holds where none is given.
pub const LEAST_LIMIT: u64 = 100_000;

/// The most settled nodes that a tree ever has: the greatest limit.
pub const MOST_SETTLED: u64 = 100_000_000;

/// The most workers that a call settles, reads or writes with.
pub const MOST_WORKERS: u32 = 16;

/// The most settled nodes that a tree may have, `LEAST_LIMIT` to `MOST_SETTLED`. It bounds what a
/// stranger's input can cost. It is no setting: a paving's identity and bytes don't depend on it.
#[derive(Clone, Copy, Debug, PartialEq, Eq)]
pub struct NodeLimit {
    nodes: u64,
}

impl Model for NodeLimit {
    ghost use Rattle.std.specs.Prelude.{ℕ};
    ghost use Rattle.pv_tree.specs.Limits.{IsLimit};

    ghost Value = { ℕ };

    ghost view = { λ a. a.nodes };

    ghost invariant = { λ a. IsLimit a.nodes };

    ghost inverse = { λ n. record { nodes = n } };
}

impl NodeLimit {
    /// The least limit, which holds where none is given.
    pub const DEFAULT: NodeLimit = NodeLimit { nodes: LEAST_LIMIT };

    /// The limit of so many nodes; None below `LEAST_LIMIT` and above `MOST_SETTLED`.
    pub fn new(nodes: u64) -> Option<NodeLimit>
        ensures sound { IfSome result (λ l. l ≡ nodes) }
        ensures complete { result ≡ None → IsLimit nodes → ⊥ }
    {
        if (LEAST_LIMIT..=MOST_SETTLED).contains(&nodes) {
            Some(NodeLimit { nodes })
        } else {
            None
        }
    }

    /// The limit that holds where none is given, as a call.
    pub fn by_default() -> NodeLimit
        ensures { result ≡ LEAST_LIMIT }
    {
        NodeLimit::DEFAULT
    }

    /// How many nodes it allows.
    #[inline]
    pub fn nodes(self) -> u64
        ensures value { result ≡ self }
        ensures fits { IsLimit self }
    {
        self.nodes
    }
}
