//! Files and streams, worked paving files, and campaigns over a keeper in memory. This crate is
//! tests alone.
#![tactic(auto)]

#[cfg(test)]
mod file;
#[cfg(test)]
mod io;
#[cfg(test)]
mod keep;
