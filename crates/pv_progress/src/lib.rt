//! A line on standard error that tells how far a run has come, while it lasts.
#![tactic(auto)]

mod clearing;
mod line;
mod progress;
#[cfg(test)]
mod tests;

pub use clearing::Clearing;
pub use progress::Progress;
