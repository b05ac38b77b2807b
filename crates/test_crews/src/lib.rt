//! What workers do at once: gates that see it, how often it is seen, and pavings by four workers that
//! go through the gates.
#![tactic(auto)]

mod gates;
mod often;
#[cfg(test)]
mod pavings;
#[cfg(test)]
mod scenes;
#[cfg(test)]
mod tests;

pub use gates::{Meeting, Pace};
pub use often::{seen, seen_by_sixteen};
