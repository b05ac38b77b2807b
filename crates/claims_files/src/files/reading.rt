//! What is read of a paving file.
pub mod faults;
pub mod limits;
pub mod texts;
pub mod wholes;
