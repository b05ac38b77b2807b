//! The command `campaign`.
#![tactic(auto)]

pub mod campaign;
