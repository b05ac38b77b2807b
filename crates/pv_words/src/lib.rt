//! The words of the command line, as a command of clap.
#![tactic(auto)]

mod command_line;

pub use command_line::paver;
