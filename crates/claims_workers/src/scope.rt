//! What settling within a scope, and in an order, promises.
pub mod closings;
pub mod orders;
pub mod shares;
