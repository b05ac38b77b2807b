//! Paving by several workers: each settles leaves of one shared board until nothing is left to
//! settle.
#![tactic(auto)]

mod account;
mod bench;
mod budget;
mod crew;
mod growing;
mod parts;
mod paving;
mod rest;
mod ruled;
mod stage;
mod task;

pub use budget::Budget;
pub use paving::{Paved, pave, pave_knowing};
