//! What sinks and folders promise.
pub mod folders;
pub mod readers;
pub mod sinks;
