ghost use Rattle.ss_command.specs.Ends.{EndsBy};
ghost use Rattle.ss_command.specs.Order.{with_streams};
ghost use Rattle.ss_command.specs.Seen.{seen};

use crate::computed::put_streams;
use crate::outside::{Done, Outside};
use crate::command::refused;
use crate::sources::read_sources;
use ss_job::Job;
use ss_outside::{Depot, Inputs, Outputs};
use ss_plan::{Plan, PlanFault};
use ss_report::Fault;
use std::alloc::Global;

/// Reads a job's sources, in order, computes the streams of its sinks, and then writes each sink's file, in order.
/// Tells the fault where one stops it.
pub(crate) fn plain<I: Inputs, O: Outputs, D: Depot>(
    alloc: Global,
    job: Job,
    mut outside: Outside<I, O, D>,
) -> Done<I, O, D>
    ensures { EndsBy (with_streams job)
        (seen I.told O.told D.told outside) (seen I.told O.told D.told result.outside) result.status }
{
    let lists = match read_sources(alloc, &mut outside.inputs, &job) {
        Ok(lists) => lists,
        Err(fault) => return refused(alloc, outside, &fault),
    };
    let plan = match Plan::of(job, lists) {
        Ok(plan) => plan,
        // Each list was measured when it was read.
        Err(PlanFault::Full { .. }) => unreachable!(),
        Err(PlanFault::Memory) => return refused(alloc, outside, &Fault::Memory),
    };
    match put_streams(alloc, &plan, &mut outside.outputs) {
        Ok(()) => Done { status: 0, outside },
        Err(fault) => refused(alloc, outside, &fault),
    }
}
