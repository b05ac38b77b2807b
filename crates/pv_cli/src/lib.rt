//! The command line of the paver: words in, a status out.
#![tactic(auto)]

mod main_call;

pub use main_call::paver_main;
pub use pv_deliver::{Unread, tell_unread};
pub use pv_made::sample_system;
pub use pv_pool::{Gate, NoGate};
pub use pv_request::{FileFault, Refusal, Status};
pub use pv_workers::{Paved, pave};
