//! Closed intervals in exact arithmetic that rounds outward: each operation holds every number that
//! it could give.
//!
//! The operations are those of interval arithmetic (Jaulin, Kieffer, Didrit and Walter, Applied
//! Interval Analysis, 2001).
#![tactic(auto)]

mod interval;
pub mod laws;

pub use interval::Interval;
