//! A paving's text, whose lines several workers make.
#![tactic(auto)]

mod rounds;
mod spread;
#[cfg(test)]
mod tests;
mod texts;
mod writer;

pub use writer::{write_by, write_lines_by};
