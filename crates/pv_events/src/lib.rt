//! Every interleaving: what can happen to a board as a list of events, what holds after each list,
//! and that each call of the board is one event or none.
#![tactic(auto)]

pub mod calls;
pub mod laws;
