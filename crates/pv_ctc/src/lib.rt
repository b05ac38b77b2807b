//! Contractor programs over the constraints of a system: their text, and what they do to a box.
//!
//! The terms are those of Chabert and Jaulin, "Contractor Programming", Artificial Intelligence
//! 173 (2009).
#![tactic(auto)]

mod contract;
mod counter;
mod graphs;
mod hulls;
mod knowing;
mod known;
pub mod laws;
pub mod program;
mod propagation;
mod reading;
mod sure;
mod token;
mod users;
mod uses;
mod writing;

pub use counter::Counter;
pub use graphs::Graphs;
pub use known::Known;
pub use program::Program;
pub use reading::ProgramRefused;
