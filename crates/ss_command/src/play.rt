ghost use Rattle.std.specs.Prelude.{◌≡◌, All};
ghost use Rattle.std.specs.Arc.{arc_value};
ghost use Rattle.ss_engine.specs.Applies.{MayApply};
ghost use Rattle.ss_outside.specs.Depot.{no_contents};
ghost use Rattle.ss_vault.specs.Calls.{HaveNoBytes};
ghost use Rattle.ss_command.specs.Ends.{EndsBy};
ghost use Rattle.ss_command.specs.Order as order;
ghost use Rattle.ss_command.specs.Order.{last, starts, with_acts};
ghost use Rattle.ss_command.specs.Seen.{seen};

use crate::outside::{Done, Outside};
use crate::command::refused;
use crate::plans::shared_plan;
use crate::read::read_schedule_file;
use crate::sources::read_sources;
use crate::telling::{fault_of, tell_acts};
use ss_fail::Act;
use ss_job::Job;
use ss_outside::{Depot, Inputs, Outputs, PutFault};
use ss_plan::Plan;
use ss_play::{play_acts, schedules_may_apply};
use ss_report::Fault;
use ss_vault::plan_facts;
use std::alloc::Global;
use std::sync::Arc;

/// Reads a job's sources, in order, and a schedule, and makes its acts, one behind the other. Then the report goes to
/// standard output, and what the job needs no more of its sources' files is released. Tells the fault where one stops
/// it.
pub(crate) fn play<I: Inputs, O: Outputs, D: Depot>(
    alloc: Global,
    job: Job,
    schedule: &str,
    mut outside: Outside<I, O, D>,
) -> Done<I, O, D>
    requires depot { (D.told outside.depot).contents ≡ no_contents }
    requires outputs { HaveNoBytes (O.told outside.outputs) }
    ensures { EndsBy (with_acts job schedule.now)
        (seen I.told O.told D.told outside) (seen I.told O.told D.told result.outside) result.status }
{
    // Why the acts that are read can be made.
    schedules_may_apply();
    let lists = match read_sources(alloc, &mut outside.inputs, &job) {
        Ok(lists) => lists,
        Err(fault) => return refused(alloc, outside, &fault),
    };
    let acts = match read_schedule_file(alloc, &mut outside.inputs, &job, schedule) {
        Ok(acts) => acts,
        Err(fault) => return refused(alloc, outside, &fault),
    };
    match shared_plan(alloc, job, lists) {
        Ok(plan) => make_acts(alloc, plan, acts.as_slice(), outside),
        Err(_) => refused(alloc, outside, &Fault::Memory),
    }
}

/// Makes acts on a plan, and tells of them, or of the fault that stops one.
fn make_acts<I: Inputs, O: Outputs, D: Depot>(
    alloc: Global,
    plan: Arc<Plan>,
    acts: &[Act],
    outside: Outside<I, O, D>,
) -> Done<I, O, D>
    requires depot { (D.told outside.depot).contents ≡ no_contents }
    requires outputs { HaveNoBytes (O.told outside.outputs) }
    requires acts { All (MayApply (arc_value plan)) acts.now }
    ensures { EndsBy (last (starts (arc_value plan) (order.acts acts.now)))
        (seen I.told O.told D.told outside) (seen I.told O.told D.told result.outside) result.status }
{
    // That there is a mark for each vertex is told with the plan's numbers.
    plan_facts(&plan);
    let Ok(shared) = Arc::try_clone(&plan) else {
        return refused(alloc, outside, &Fault::Memory);
    };
    let played = play_acts(alloc, shared, acts, outside.outputs, outside.depot);
    let mut outside = Outside {
        inputs: outside.inputs,
        outputs: played.outputs,
        depot: played.depot,
    };
    match played.answer {
        Ok(report) => match tell_acts(
            &mut outside.inputs,
            &mut outside.outputs,
            plan.job(),
            &report,
        ) {
            Ok(()) => Done { status: 0, outside },
            Err(PutFault::Failed) => refused(alloc, outside, &Fault::Output),
            Err(PutFault::Memory) => refused(alloc, outside, &Fault::Memory),
        },
        Err(stop) => refused(alloc, outside, &fault_of(plan.job(), stop)),
    }
}
