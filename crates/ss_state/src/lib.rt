//! What a run of a job is, as numbers: what its tails, replicas and ledger are, and what each act does to them.
//!
//! The definitions stand in `specs/`, for the contracts of other crates to cite. The functions here do
//! nothing when they run: each has a law, or worked examples, as its contract.
#![tactic(auto)]

mod entry;
mod examples;
mod laws;
mod meaning;
mod wrong_readings;

pub use entry::Entry;
pub use examples::{
    collection_examples, lost_tail_example, pass_examples, racing_replicas_example, rule_examples,
    storing_examples,
};
pub use laws::{
    acts_keep_joint, acts_make_one_entry, entries_keep_sound, first_state_is_joint,
    flush_is_never_apart, marks_are_least, need_is_below_required, nothing_durable_falls,
    nothing_needed_is_gone, nothing_required_goes, pass_collects_exactly, positions_never_fall,
};
pub use meaning::{job_of_three_is_meant, numbers_are_meant, runnable_has_numbers};
pub use wrong_readings::wrong_readings_differ;
