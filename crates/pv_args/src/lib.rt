//! From the words of a command line to what they ask for.
#![tactic(auto)]

mod faults;
mod reading;
mod values;

pub use faults::{Expected, WordFault, fault_of, with_value};
pub use reading::read;
