ghost use Rattle.ss_frames.specs.Laws.{PlansAreRunnable, PlansHaveNumbers, PlanNumbersAreMeant, InputsAreOfNodes};
ghost use Rattle.ss_frames.specs.Laws.{FirstFrames, FramesAreMeant, EntriesAreFew, FramesHaveCodes};
ghost use Rattle.ss_frames.specs.Laws.{ElementsHaveRecords, WithinIsMayAccept};

use ss_codec::frames_have_lengths;
use ss_image::images_have_lengths;
use ss_meaning::{
    entries_are_in_order, entries_follow, meaning_is_made_of_the_inputs, meaning_is_whole,
    merge_keeps_each_input, sessions_are_of_rows, sessions_follow,
};
use ss_plan::{plans_mean_jobs, vertices_by_number};
use ss_state::{numbers_are_meant, runnable_has_numbers};

/// The numbers of a plan are those of its meaning and its job, and such as the laws of runs ask.
pub fn plans_have_numbers()
    ensures runnable { PlansAreRunnable }
    ensures numbers { PlansHaveNumbers }
    ensures meant { PlanNumbersAreMeant }
    ensures inputs { InputsAreOfNodes }
{
    plans_mean_jobs();
    vertices_by_number();
    runnable_has_numbers();
    numbers_are_meant();
    meaning_is_made_of_the_inputs();
}

/// What the snapshot of an operator is that has read nothing.
pub fn first_frames_are_empty()
    ensures { FirstFrames }
{
    vertices_by_number();
}

/// A vertex stands within its job's limit where the numbers of the plan say so.
pub fn within_is_may_accept()
    ensures { WithinIsMayAccept }
{
    plans_mean_jobs();
    vertices_by_number();
    meaning_is_whole();
    merge_keeps_each_input();
    plans_have_numbers();
}

/// An operator that stands within its job's limit remembers few entries.
pub fn entries_are_few()
    ensures { EntriesAreFew }
{
    vertices_by_number();
    entries_follow();
    entries_are_in_order();
    sessions_follow();
    sessions_are_of_rows();
}

/// A snapshot has the numbers of the meaning, and within the job's limit a code.
pub fn frames_have_codes()
    ensures meant { FramesAreMeant }
    ensures codes { FramesHaveCodes }
{
    plans_mean_jobs();
    vertices_by_number();
    meaning_is_whole();
    merge_keeps_each_input();
    images_have_lengths();
    frames_have_lengths();
    entries_are_few();
}

/// Each element of each stream has a record, where what the plan holds is of the program's types.
pub fn elements_have_records()
    ensures { ElementsHaveRecords }
{
    plans_mean_jobs();
    vertices_by_number();
    meaning_is_whole();
    merge_keeps_each_input();
    meaning_is_made_of_the_inputs();
    sessions_are_of_rows();
}
