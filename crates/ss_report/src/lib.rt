//! What the program tells: a line for each fault, and the lines of its reports.
#![tactic(auto)]

mod fault;
mod fault_lines;
mod put;
mod read_again;
mod state_lines;
mod state_row;
mod table_lines;
mod trace_lines;
mod why;

pub use fault::{Fault, status_of};
pub use fault_lines::{fault_line, fixed_line};
pub use read_again::acts_are_read_again;
pub use ss_water::Memory;
pub use state_lines::state_line;
pub use state_row::StateRow;
pub use trace_lines::trace_line;
