//! Paving files of a system, read and joined.
#![tactic(auto)]

mod opening;
mod pavings;

pub use opening::{Opening, line_at, opening_in};
pub use pavings::{Key, paving_in};
