//! The two versions of a paving file.

/// How a paving file spells the ends of what a node kept.
#[derive(Clone, Copy, Debug, PartialEq, Eq)]
pub enum Version {
    /// Each end is its number.
    One,
    /// An end that is also one of the node's box is `=`, any other is its number.
    Two,
}
