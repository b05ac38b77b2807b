//! What comes of the commands, and how they end.
#![tactic(auto)]

mod product;
pub mod summary;

pub use product::{Product, is_closed, of_paving, told};
