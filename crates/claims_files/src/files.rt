//! What paving files promise.
pub mod lines;
pub mod reading;
pub mod scribes;
pub mod writing;
