//! What public calls promise of campaigns, of their rounds and rows and of what keeps them, said once
//! more of calls alone. The edits of must-fail/ turn these bodies: what a clause refuses is seen
//! without proving a crate of code again.
#![tactic(auto)]

pub mod in_memory;
pub mod keepers;
pub mod openings;
pub mod rounds;
pub mod rows;
