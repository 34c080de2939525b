//! The meaning of a job: the stream of each of its vertices where nothing fails.
//!
//! The definitions stand in `specs/`, for the contracts of other crates to cite. The functions here do
//! nothing when they run: each has a law, or worked examples, as its contract.
#![tactic(auto)]

mod entry_laws;
mod examples;
mod except_laws;
mod join_laws;
mod laws;
mod session_laws;
mod wrong_meanings;

pub use entry_laws::{entries_are_in_order, entries_follow};
pub use examples::{
    entry_examples, entry_step_examples, job_example, join_examples, merge_examples,
    window_examples,
};
pub use except_laws::{absent_rows_follow, except_examples};
pub use join_laws::join_sides_follow;
pub use laws::{
    bound_is_that_of_valid_lists, bounds_tell_what_is_next, counts_never_fall,
    least_bound_goes_next, low_never_falls, meaning_is_early, meaning_is_made_of_the_inputs,
    meaning_is_whole, merge_keeps_each_input, output_only_grows, positions_add_up,
    sessions_are_of_rows, sessions_close_in_time, sorted_is_in_order, windows_with_rows_are_given,
};
pub use session_laws::{
    session_examples, sessions_are_apart, sessions_follow, sessions_go_by_keys,
};
pub use wrong_meanings::wrong_meanings_differ;
