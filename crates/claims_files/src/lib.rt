//! What public calls promise of sinks and folders, of paving files, of their lines by several workers,
//! and of pictures, said once more of calls alone. The edits of must-fail/ turn these bodies: what a
//! clause refuses is seen without proving a crate of code again.
#![tactic(auto)]

pub mod files;
pub mod outside;
pub mod pictures;
pub mod workers;
