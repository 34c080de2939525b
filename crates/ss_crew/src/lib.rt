//! The parts of a running job in slots, which threads take and give back: its tails, its replicas, and its vault.
#![tactic(auto)]

mod crew_plan;
mod part;
mod rows;

pub use crew_plan::CrewPlan;
pub use part::Part;
