//! Worked centered forms of constraints that are read from their texts, and boxes settled by them.
//! This crate is tests alone.
#![tactic(auto)]

#[cfg(test)]
mod ranges;
#[cfg(test)]
mod settled;
#[cfg(test)]
mod slopes;
#[cfg(test)]
mod table;
