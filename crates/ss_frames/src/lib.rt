//! The numbers of a plan, and the snapshots of its vertices, as its meaning has them.
//!
//! The definitions stand in `specs/`, for the contracts of other crates to cite. The functions here do
//! nothing when they run: each has a law as its contract.
#![tactic(auto)]

mod examples;
mod laws;

pub use examples::frame_examples;
pub use laws::{
    elements_have_records, entries_are_few, first_frames_are_empty, frames_have_codes,
    plans_have_numbers, within_is_may_accept,
};
