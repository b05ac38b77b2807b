//! The limit on the nodes of a board's paving.
ghost use Rattle.std.specs.Prelude.{◌≡◌};
ghost use Rattle.pv_tree.specs.Limits.{IsLimit};

use crate::naming::Naming;
use pv_tree::NodeLimit;
use std::marker::PhantomData;

/// The limit that a board is named for.
#[derive(Drop)]
pub(crate) struct Ceiling<N: Naming> {
    limit: NodeLimit,
    of: PhantomData<N>,
    ghost is: { limit ≡ N.limit },
}

impl<N: Naming> Ceiling<N> {
    /// A limit under the board's name.
    pub(crate) fn of(limit: NodeLimit) -> Ceiling<N>
        requires { limit ≡ N.limit }
    {
        Ceiling {
            limit,
            of: PhantomData,
        }
    }

    /// The most nodes that may be settled.
    pub(crate) fn nodes(&self) -> u64
        ensures value { result ≡ N.limit }
        ensures fits { IsLimit N.limit }
    {
        self.limit.nodes()
    }
}
