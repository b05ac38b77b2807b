//! What public calls of the crates that read a system promise, said once more of calls alone. The
//! edits of must-fail/ turn these bodies: what a clause refuses is seen without proving a crate of
//! code again.
#![tactic(auto)]

pub mod code;
pub mod expr;
pub mod grammar;
pub mod made;
pub mod parse;
pub mod tokens;
