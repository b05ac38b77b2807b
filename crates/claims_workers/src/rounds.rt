//! What the rounds of a campaign promise.
pub mod further;
pub mod refused;
pub mod whole;
