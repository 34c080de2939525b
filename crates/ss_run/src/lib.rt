//! Runs: a job is started and brought to its end by the serial driver, and told of.
#![tactic(auto)]

mod running;
mod summary;

pub use running::{Ran, Told, run_job};
