//! The grammar of systems and of single expressions, over tokens whose names are resolved: a
//! predictive machine that writes the code of what it reads, and the limits that are counted token
//! by token.
#![tactic(auto)]

mod cause;
mod counts;
pub mod laws;
mod machine;
mod production;
mod symbol;

pub use cause::Cause;
pub use counts::{Counts, MOST_FUNCTIONS, MOST_NESTING, MOST_OPERATIONS, Phase};
pub use machine::{Item, Machine};
pub use symbol::{Fixed, Symbol};
