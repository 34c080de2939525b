ghost use Rattle.ss_state.specs.Examples.{JobOfThreeIsMeant};
ghost use Rattle.ss_state.specs.MeaningLaws.{NumbersAreMeant, RunnableHasNumbers};

use ss_meaning::{meaning_is_made_of_the_inputs, meaning_is_whole, merge_keeps_each_input};

/// The numbers of each vertex are those of its meaning.
pub fn numbers_are_meant()
    ensures { NumbersAreMeant }
{
    meaning_is_made_of_the_inputs();
}

/// The numbers of a job that can be run are such as the laws of its runs ask.
pub fn runnable_has_numbers()
    ensures { RunnableHasNumbers }
{
    merge_keeps_each_input();
    meaning_is_made_of_the_inputs();
    meaning_is_whole();
}

/// The job of the worked runs, as it is made from a source's list, a select and a sink.
pub fn job_of_three_is_meant()
    ensures { JobOfThreeIsMeant }
{}
