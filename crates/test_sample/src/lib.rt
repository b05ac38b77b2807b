//! A plain settler, whose set is a half-space, and settling by it: for worked examples of trees and
//! for measurements.
#![tactic(auto)]

mod above;
mod steps;

pub use above::Above;
pub use steps::{grow, settle_first, settle_in_room};
