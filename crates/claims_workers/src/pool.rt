//! What a pool of workers promises.
pub mod deques;
pub mod ends;
pub mod jobs;
