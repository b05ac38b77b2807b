//! Workers that work jobs and steal them from each other.
#![tactic(auto)]

mod bench;
mod deque;
mod gate;
mod pool;
mod seat;
mod teardown;
mod work;
mod worker;

pub use gate::{Gate, NoGate};
pub use pool::{PoolRefused, run_workers};
pub use work::{Idle, Work};
