//! The settler of a system: one step of a paving by contraction, which removes a box, finds it
//! inside, finds it small, or cuts it.
//!
//! Source: the algorithm SIVIA of Jaulin, Kieffer, Didrit, Walter, "Applied Interval Analysis"
//! (2001), with a contractor.
#![tactic(auto)]

mod knowing;
mod settings;
mod settler;
mod step;
mod texts;

pub use settings::Settings;
pub use settler::SystemSettler;
