//! What crates of tests that call commands share: calls over an outside in memory, what is to come
//! of them, and texts that several of them name.
#![tactic(auto)]

mod calling;
mod rows;
mod steps;
pub mod texts;

pub use calling::{Answer, Fails, NONE, call, call_at, call_keeping, holds, lacks, shelf};
pub use rows::push_rows;
pub use steps::{Comes, Step, USAGE, came_to, follow, output_failed};
