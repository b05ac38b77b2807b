//! What a stage of the open search box says of a system.
#![tactic(auto)]

mod honest;

pub use honest::learn_honest;
