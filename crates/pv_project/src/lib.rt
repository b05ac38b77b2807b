//! Projections: what the arguments of an operation can be if its result lies in a given
//! interval, the step down of HC4-revise.
#![tactic(auto)]

pub mod laws;
mod order;
mod power;
mod resting;
mod ring;

pub use order::{back_abs, back_max, back_min, back_neg};
pub use power::back_pow;
pub use resting::{Rest, back_add_resting, back_sub_resting};
pub use ring::{back_add, back_div, back_mul, back_sub};
