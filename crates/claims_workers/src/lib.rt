//! What public calls promise of workers, of shares and levels, and of the rounds of a campaign, said
//! once more of calls alone. The edits of must-fail/ turn these bodies: what a clause refuses is seen
//! without proving a crate of code again.
#![tactic(auto)]

pub mod fork;
pub mod pool;
pub mod rounds;
pub mod scope;
pub mod workers;
