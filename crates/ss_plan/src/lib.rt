//! Plans: a job with the lists of its sources, and the streams that it means, each computed as a whole.
#![tactic(auto)]

mod arrived;
mod bounds;
mod excepts;
mod fault;
mod joins;
mod laws;
mod merging;
mod needed;
mod one_input;
mod operating;
mod plain_streams;
mod plan;
mod segment;
mod sessions;
mod sources;
mod stream;
mod streams;
mod windows;

pub use fault::PlanFault;
pub use laws::{plans_mean_jobs, vertices_by_number};
pub use plain_streams::{plain, plain_all};
pub use plan::Plan;
