//! Boxes: an interval for each of 1 to 12 variables, with the place at which a box is cut.
#![tactic(auto)]

mod boxes;
mod choice;
mod hull;
pub mod laws;

pub use boxes::{IBox, MOST_PLACES};
pub use choice::Bisector;
