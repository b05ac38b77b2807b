//! Systems that are made from a number: the same number makes the same circles on every machine.
#![tactic(auto)]

mod circles;
mod draws;

pub use circles::sample_system;
