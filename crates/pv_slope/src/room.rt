//! Room for settling boxes.

use crate::columns::Columns;
use pv_hc4::Scratch;
use std::alloc::Global;

/// Room for settling boxes, kept from one to the next. What is in it matters to no call.
#[derive(Drop)]
pub struct Room {
    pub(crate) scratch: Scratch,
    pub(crate) columns: Columns,
    pub(crate) none: Vec<bool>,
    pub(crate) sure: Vec<bool>,
}

impl Room {
    /// Takes no memory yet.
    pub fn new(alloc: Global) -> Room {
        Room {
            scratch: Scratch::new(alloc),
            columns: Columns::new(alloc),
            none: Vec::new(alloc),
            sure: Vec::new(alloc),
        }
    }
}
