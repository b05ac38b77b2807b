//! Worked trees of boxes, their joins and audits, and the plain settler of other tests. This crate
//! is tests alone.
#![tactic(auto)]

pub mod claims;
#[cfg(test)]
mod join;
#[cfg(test)]
mod sample;
#[cfg(test)]
mod tree;
