//! Event files: text with a row on each line, read as a stream's list of elements.
#![tactic(auto)]

mod fault;
mod fields;
mod late;
mod number;
mod read;
mod records;
mod row;

pub use fault::{EventFault, EventWhy, EventsFault};
pub use late::Late;
pub use read::read_events;
