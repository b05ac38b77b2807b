//! What a command is asked for, and what ends one early.
#![tactic(auto)]

mod decimal;
mod refusal;
mod request;
mod status;

pub use decimal::push_decimal;
pub use refusal::{FileFault, Refusal};
pub use request::{
    Circles, Effort, MOST_CIRCLES, MOST_PAVINGS, MOST_ROUNDS, MOST_SEED, Request, Rounds, Search,
    Settings, View, Workers,
};
pub use status::Status;
