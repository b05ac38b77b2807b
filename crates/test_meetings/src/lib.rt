//! What four workers do at once under the commands `run` and `resume`. This crate is tests alone.
#![tactic(auto)]

#[cfg(test)]
mod calls;
#[cfg(test)]
mod meets;
#[cfg(test)]
mod tests;
