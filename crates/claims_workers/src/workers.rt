//! What paving by several workers promises.
pub mod budgets;
pub mod rules;
pub mod tickets;
