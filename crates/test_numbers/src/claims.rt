//! What public calls promise, said once more of calls alone. The edits of must-fail/ turn these
//! bodies: what a clause refuses is seen without proving a crate of code again.
pub mod boxes;
pub mod interval;
pub mod num;
pub mod project;
