//! The Minibex reader: texts of systems, of single expressions and of numbers, with the place and
//! the cause of each refusal.
#![tactic(auto)]

pub mod laws;
mod names;
mod reader;
mod refused;
mod state;
mod variable;

pub use pv_grammar::Cause;
pub use pv_tokens::read_number;
pub use reader::{MOST_TEXT, parse, parse_expr};
pub use refused::ParseRefused;
