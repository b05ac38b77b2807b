//! How a box is settled, and what a tree's nodes look like.
ghost use Rattle.std.specs.Prelude.{◌≡◌, ◌+◌, ◌<◌, ◌^◌};

use pv_box::IBox;
use pv_num::Num;

/// What settling a box found. In each variant `to` is what contraction left of the box.
#[derive(Drop)]
pub enum Outcome {
    /// No point of the box is in the set.
    Removed,
    /// Every point of `to` is in the set.
    Inner { to: IBox },
    /// `to` is small, or can't be divided further.
    Small { to: IBox },
    /// `to` is cut at place `var` into the half up to `at` and the half from `at` on.
    Cut { to: IBox, var: u8, at: Num },
}

/// The shape of a node of a paving, without its box.
#[derive(Clone, Copy)]
pub enum Shape {
    /// The tree has no such path.
    Absent,
    OpenLeaf,
    Removed,
    Inner,
    Small,
    Cut { var: u8, at: Num },
}

/// How many nodes a paving has of each kind.
#[derive(Clone, Copy, Debug, PartialEq, Eq)]
pub struct Counts {
    pub cut: u64,
    pub removed: u64,
    pub inner: u64,
    pub small: u64,
    pub open_leaves: u64,
}

impl Counts {
    /// The counts of one open leaf.
    pub(crate) const OPEN: Counts = Counts {
        cut: 0,
        removed: 0,
        inner: 0,
        small: 0,
        open_leaves: 1,
    };

    /// The number of nodes that are not open.
    pub fn settled(&self) -> u64
        requires { self.now.cut + self.now.removed + self.now.inner + self.now.small < 2 ^ 64 }
        ensures { result ≡ self.now.cut + self.now.removed + self.now.inner + self.now.small }
    {
        self.cut + self.removed + self.inner + self.small
    }
}
