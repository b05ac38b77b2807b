//! Texts of programs, and worked contractions by them. This crate is tests alone.
#![tactic(auto)]

#[cfg(test)]
mod programs;
#[cfg(test)]
mod table;
#[cfg(test)]
mod texts;
