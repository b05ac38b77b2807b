//! The last step of a command: it stores and prints what came of it, or says why it ended early.
#![tactic(auto)]

pub mod deliver;
mod telling;

pub use telling::{Unread, tell, tell_unread};
