//! Room for the passes over the nodes of an expression.

use pv_interval::Interval;
use std::alloc::Global;

/// One interval a node for each pass, and whether a variable stands in its term, kept from one box
/// to the next.
#[derive(Drop)]
pub struct Columns {
    pub(crate) values: Vec<Interval>,
    pub(crate) centres: Vec<Interval>,
    pub(crate) factors: Vec<Interval>,
    pub(crate) moving: Vec<bool>,
    pub(crate) slopes: Vec<Interval>,
}

impl Columns {
    /// Takes no memory yet.
    pub fn new(alloc: Global) -> Columns {
        Columns {
            values: Vec::new(alloc),
            centres: Vec::new(alloc),
            factors: Vec::new(alloc),
            moving: Vec::new(alloc),
            slopes: Vec::new(alloc),
        }
    }
}
