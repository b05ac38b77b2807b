//! Keepers over databases in memory. This crate is tests alone.
#![tactic(auto)]

#[cfg(test)]
mod keepers;
