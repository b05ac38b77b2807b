//! Worked texts of expressions, tokens and systems, and made systems. This crate is tests alone.
#![tactic(auto)]

#[cfg(test)]
mod expr;
#[cfg(test)]
mod made;
#[cfg(test)]
mod parse;
#[cfg(test)]
mod tokens;
