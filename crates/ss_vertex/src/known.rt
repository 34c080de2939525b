ghost use Rattle.ss_vertex.specs.Known.{Known};

use ss_frames::{entries_are_few, plans_have_numbers};
use ss_meaning::{
    bounds_tell_what_is_next, low_never_falls, meaning_is_early, meaning_is_made_of_the_inputs,
    meaning_is_whole, merge_keeps_each_input, output_only_grows, positions_add_up,
};
use ss_oper::images_are_read_again;
use ss_plan::{plans_mean_jobs, vertices_by_number};

/// What is true of every plan, of what arrives at its vertices and of what they give.
pub(crate) fn laws_of_vertices()
    ensures { Known }
{
    plans_mean_jobs();
    vertices_by_number();
    plans_have_numbers();
    meaning_is_made_of_the_inputs();
    meaning_is_whole();
    meaning_is_early();
    merge_keeps_each_input();
    low_never_falls();
    bounds_tell_what_is_next();
    output_only_grows();
    positions_add_up();
    entries_are_few();
    images_are_read_again();
}
