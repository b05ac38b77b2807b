//! What opening a campaign promises.
pub mod kept;
pub mod limits;
pub mod refusals;
