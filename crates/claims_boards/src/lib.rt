//! What the calls of boards, of their events and of audits by workers promise, said once more of
//! calls alone. The edits of must-fail/ turn these bodies: what a clause refuses is seen without
//! proving a crate of code again.
#![tactic(auto)]

pub mod audits;
pub mod boards;
pub mod events;
pub mod laws;
pub mod shared;
