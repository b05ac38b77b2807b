//! Commands whose outside fails, call by call. This crate is tests alone.
#![tactic(auto)]

#[cfg(test)]
mod fault_cases;
#[cfg(test)]
mod faults;
