//! Worked boards, by the plain settler. This crate is tests alone.
#![tactic(auto)]

#[cfg(test)]
mod rows;
#[cfg(test)]
mod seeded;
#[cfg(test)]
mod stages;
#[cfg(test)]
mod tickets;
