//! Rounds of a campaign: each settles what a budget allows of the kept paving, and is saved before
//! the next begins.
#![tactic(auto)]

mod campaign;
mod plan;
mod rounds;

pub use campaign::{HoldRefused, Subject, run_rounds};
pub use plan::Plan;
pub use rounds::{go_on, learn_rounds};
