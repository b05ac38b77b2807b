//! The command `least`.
#![tactic(auto)]

pub mod least;
