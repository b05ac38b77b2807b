//! Joins of pavings over one box, and the audit of a paving against a settler.
#![tactic(auto)]

mod check;
mod meeting;
mod merge;
mod outcomes;
mod verdict;

pub use check::{audit, differing};
pub use merge::{JoinRefused, join, overlay};
pub use verdict::Audit;
