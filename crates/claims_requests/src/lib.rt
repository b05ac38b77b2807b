//! What public calls promise of statuses, of the words of a command, of its system, and of what is
//! stored and printed, said once more of calls alone. The edits of must-fail/ turn these bodies.
#![tactic(auto)]

pub mod deliver;
pub mod rule;
pub mod status;
pub mod words;
