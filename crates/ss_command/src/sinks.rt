ghost use Rattle.std.specs.Prelude.{◌≡◌, ◌<◌, length, option_map};
ghost use Rattle.ss_plan.specs.Plan.{lists_of};
ghost use Rattle.ss_command.specs.Output.{sink_file};
ghost use Rattle.ss_command.specs.Computed.{list_at};

use ss_elem::Element;
use ss_job::{Job, Op};

/// The file of a vertex, if it is a sink.
pub(crate) fn sink_file(job: &Job, v: u32) -> Option<&str>
    requires { v < length job.now.vertices }
    ensures { option_map (λ file. file.now) result ≡ sink_file job.now v }
{
    match job.op(v) {
        Op::Sink => Some(job.file(v)),
        Op::Source | Op::Select | Op::Union | Op::Window | Op::Join | Op::Session | Op::Except =>
            None,
    }
}

/// The list under a number, none where there is none.
pub(crate) fn list_at(lists: &[Vec<Element>], v: u32) -> &[Element]
    ensures { result.now ≡ list_at (lists_of lists.now) v }
{
    match lists.get(v as usize) {
        Some(list) => list.as_slice(),
        None => &[],
    }
}
