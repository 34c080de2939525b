//! Commands: what the program's words ask for, done over given files and a given store.
#![tactic(auto)]

mod check;
mod command;
mod computed;
mod generate;
mod outside;
mod plain;
mod plans;
mod play;
mod read;
mod run;
mod sinks;
mod sources;
mod summary;
mod telling;
mod work;
mod write;

pub use command::{perform, refuse};
pub use outside::{Done, Outside};
