//! The commands that begin with paving files: `resume`, `merge`, `audit` and `audit-centered`.
#![tactic(auto)]

pub mod audit;
pub mod merge;
pub mod resume;
