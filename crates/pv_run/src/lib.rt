//! The commands that begin with a system alone: `run`, `run-centered`, `sample` and `check`.
#![tactic(auto)]

pub mod check;
pub mod run;
pub mod sample;
