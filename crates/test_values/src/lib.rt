//! Least values of expressions over systems that are read from their texts. This crate is tests
//! alone.
#![tactic(auto)]

#[cfg(test)]
mod members;
#[cfg(test)]
mod table;
#[cfg(test)]
mod values;
#[cfg(test)]
mod worked;
