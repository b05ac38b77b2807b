//! The nodes of a paving's arena.
use pv_num::Num;

/// What a node of the arena holds. The ends of its `to` begin at `start` in the paving's flat
/// vector.
#[derive(Clone, Copy)]
pub(crate) enum Cell {
    Open,
    Removed,
    Inner {
        start: usize,
    },
    Small {
        start: usize,
    },
    /// The low child stands at `kids` and the high child after it.
    Cut {
        start: usize,
        var: u8,
        at: Num,
        kids: usize,
    },
}

/// A node. Where `closed` is true no leaf at or below it is open, so a search need not go there.
#[derive(Clone, Copy)]
pub(crate) struct Node {
    pub(crate) cell: Cell,
    pub(crate) closed: bool,
}

impl Node {
    pub(crate) const OPEN: Node = Node {
        cell: Cell::Open,
        closed: false,
    };
}
