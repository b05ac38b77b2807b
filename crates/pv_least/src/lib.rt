//! The least value of an expression over a solution set: a bound below it, and a point of the set
//! with a bound above the value there.
//!
//! Leaf by leaf, the search cuts what may hold a lower value than the best point so far.
//! This is branch and bound with interval bounds (Moore, "Interval Analysis", 1966; Hansen, "Global
//! Optimization Using Interval Analysis", 1992).
#![tactic(auto)]

mod candidate;
mod found;
mod objective;
mod point;
mod search;

pub use found::{BestPoint, Least};
pub use objective::Objective;
pub use point::Point;
pub use search::least;
