//! Worked revisions of constraints that are read from their texts. This crate is tests alone.
#![tactic(auto)]

#[cfg(test)]
mod revisions;
#[cfg(test)]
mod table;
