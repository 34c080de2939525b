//! What can be done to a running job, what comes of it, the names and roles of a job's vertices, and scripts: files
//! that say which acts are made.
#![tactic(auto)]

mod act;
mod act_reader;
mod decimal;
mod failure_reader;
mod fault;
mod line;
mod name;
mod outcome;
mod role;
mod said_lines;
mod script;
mod trigger;
mod word;

pub use act::Act;
pub use fault::{ScriptFault, ScriptWhy, ScriptsFault};
pub use name::Name;
pub use outcome::Outcome;
pub use role::Role;
pub use script::{read_failures, read_schedule};
pub use trigger::Trigger;
