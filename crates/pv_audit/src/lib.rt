//! The audit of a paving by several workers.
#![tactic(auto)]

mod report;
mod share;
mod workers;

pub use workers::audit_by_workers;
