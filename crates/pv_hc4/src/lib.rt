//! Constraints as graphs of shared nodes, and HC4-revise on them: a forward pass of intervals up
//! the graph and a backward pass of projections down to the variables.
//!
//! Source: Benhamou, Goualard, Granvilliers, Puget, "Revising hull and box consistency" (1999).
#![tactic(auto)]

pub mod builder;
pub mod forward;
mod graph;
mod judge;
pub mod laws;
mod marks;
mod narrow;
mod node;
mod relate;
mod revise;
mod revised;
mod steps;
pub mod total;

pub use graph::{Forward, Graph, Scratch, fill};
pub use judge::Judged;
pub use marks::{MOST_MARKS, Marks};
pub use node::Node;
pub use revised::Revised;
pub use steps::Steps;
