//! A job with two large event files, to put an engine under load: the texts are the same whenever they are made.
#![tactic(auto)]

mod draws;
mod events;
mod job;
mod put;
mod row;

pub use events::gen_events;
pub use job::gen_job;
pub use std::alloc::AllocError as Memory;
