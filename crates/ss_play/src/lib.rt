//! Schedules: the acts that they say are made on a job from its start on, with a report of them and of the state that
//! they leave. And what is said of acts that were made on a job from its start on, whoever chose them.
#![tactic(auto)]

mod fault;
mod laws;
mod playing;
mod releasing;
mod reporting;
mod schedules;

pub use fault::PlayFault;
pub use laws::plays_are_told;
pub use playing::{Played, Report, play_acts};
pub use releasing::release_all;
pub use reporting::{marks_of, trace_of};
pub use schedules::{failures_can_fire, schedules_may_apply};
