//! Worked pictures of slices of pavings; most pavings are read from their texts. This crate is tests alone.
#![tactic(auto)]

#[cfg(test)]
mod pictures;
#[cfg(test)]
mod sinks;
#[cfg(test)]
mod table;
