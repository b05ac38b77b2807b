//! Worked numbers, intervals, projections and boxes, and what they promise. This crate is tests
//! alone.
#![tactic(auto)]

#[cfg(test)]
mod boxes;
pub mod claims;
#[cfg(test)]
mod interval;
#[cfg(test)]
mod num;
#[cfg(test)]
mod project;
