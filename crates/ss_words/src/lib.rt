//! The words of a command, as they stand after the program's name.
#![tactic(auto)]

mod command;
mod given;
mod words;

pub use command::{Command, RunOptions};
pub use words::{WordsFault, command_of};
