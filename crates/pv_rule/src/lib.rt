//! The system of a command, and the settler that its settings give.
#![tactic(auto)]

mod system;

pub use system::{settler_for, settler_in, system_in};
