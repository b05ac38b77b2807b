//! What contractors, settlers and the search for a least value promise, said once more of calls
//! alone. The edits of must-fail/ turn these bodies: what a clause refuses is seen without proving a
//! crate of code again.
#![tactic(auto)]

pub mod centered;
pub mod least_values;
pub mod programs;
pub mod revisions;
pub mod settling;
