//! What keepers over databases promise of the name that is begun and of their count of faults, said
//! once more of calls alone. The edits of must-fail/ turn these bodies: what a clause refuses is seen
//! without proving a crate of code again.
#![tactic(auto)]

pub mod connections;
pub mod files;
