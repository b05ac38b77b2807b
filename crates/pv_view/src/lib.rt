//! The command `svg`.
#![tactic(auto)]

pub mod svg;
