//! What a revision answers.

/// What HC4-revise did to a box.
#[derive(Clone, Copy, Debug, PartialEq, Eq)]
pub enum Revised {
    /// Nothing: the box is as it was.
    Kept,
    /// Some place became narrower.
    Changed,
    /// No point of the box satisfies the constraint.
    Empty,
}
