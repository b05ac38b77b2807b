//! What a picture is made of.
use pv_interval::Interval;

/// What a paving says of a rectangle's points.
#[derive(Clone, Copy, Debug, PartialEq, Eq)]
pub enum Class {
    /// None is in the set.
    Removed,
    /// All are in the set.
    Inner,
    /// It doesn't say: they were not divided further.
    Small,
    /// It doesn't say: they are still to be settled.
    OpenLeaf,
}

/// The part of the plane that a box takes up, with what the paving says of it.
#[derive(Drop)]
pub struct Rectangle {
    pub(crate) x: Interval,
    pub(crate) y: Interval,
    pub(crate) class: Class,
}
