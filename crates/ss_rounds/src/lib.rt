//! Why a driver that works in rounds comes to its end, over the numbers of a run alone.
//!
//! The definitions stand in `specs/`: one number, the total, that tells how far a run is from its end, and what
//! is whole. The functions here do nothing when they run: each has laws, or worked examples, as its contract.
#![tactic(auto)]

mod examples;
mod laws;

pub use examples::total_examples;
pub use laws::{
    failures_lower_the_total, flushes_lower_the_total, ruled_acts_lower_the_total,
    takes_lower_the_total, what_is_over_is_whole, whole_stays,
};
