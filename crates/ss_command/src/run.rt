ghost use Rattle.std.specs.Prelude.{◌≡◌, option_map};
ghost use Rattle.std.specs.Arc.{arc_value};
ghost use Rattle.std.specs.List.{AllByRecursion};
ghost use Rattle.ss_frames.specs.Plans.{plan_numbers};
ghost use Rattle.ss_outside.specs.Depot.{no_contents};
ghost use Rattle.ss_state.specs.Rule.{IsTrigger};
ghost use Rattle.ss_vault.specs.Calls.{HaveNoBytes};
ghost use Rattle.ss_words.specs.Answers.{run_text};
ghost use Rattle.ss_command.specs.Ends.{EndsBy};
ghost use Rattle.ss_command.specs.Order.{finish, last, starts, with_run};
ghost use Rattle.ss_command.specs.Seen.{seen};

use crate::outside::{Done, Outside};
use crate::command::refused;
use crate::plans::shared_plan;
use crate::read::read_failures_of;
use crate::sources::read_sources;
use crate::telling::{fault_of, tell_run};
use ss_fail::Trigger;
use ss_job::Job;
use ss_outside::{Depot, Inputs, Outputs, PutFault};
use ss_plan::Plan;
use ss_play::failures_can_fire;
use ss_report::Fault;
use ss_run::run_job;
use ss_vault::plan_facts;
use ss_words::RunOptions;
use std::alloc::Global;
use std::sync::Arc;

/// Reads a job's sources, in order, and its failures, and brings it to its end. Then the trace goes to its name, if
/// there is one, and the summary to standard output, and what the job needs no more of its sources' files is released.
/// Tells the fault where one stops it.
pub(crate) fn run<I: Inputs, O: Outputs, D: Depot>(
    alloc: Global,
    job: Job,
    options: &RunOptions<'_>,
    mut outside: Outside<I, O, D>,
) -> Done<I, O, D>
    requires depot { (D.told outside.depot).contents ≡ no_contents }
    requires outputs { HaveNoBytes (O.told outside.outputs) }
    ensures { EndsBy (with_run job (run_text options.now))
        (seen I.told O.told D.told outside) (seen I.told O.told D.told result.outside) result.status }
{
    // Why the failures that are read can be made.
    failures_can_fire();
    let lists = match read_sources(alloc, &mut outside.inputs, &job) {
        Ok(lists) => lists,
        Err(fault) => return refused(alloc, outside, &fault),
    };
    let triggers = match read_failures_of(alloc, &mut outside.inputs, &job, options.failures) {
        Ok(triggers) => triggers,
        Err(fault) => return refused(alloc, outside, &fault),
    };
    match shared_plan(alloc, job, lists) {
        Ok(plan) => finish_job(alloc, plan, triggers.as_slice(), options.trace, outside),
        Err(_) => refused(alloc, outside, &Fault::Memory),
    }
}

/// Brings the job of a plan to its end, and tells of it, or of the fault that stops it.
fn finish_job<I: Inputs, O: Outputs, D: Depot>(
    alloc: Global,
    plan: Arc<Plan>,
    triggers: &[Trigger],
    trace: Option<&str>,
    outside: Outside<I, O, D>,
) -> Done<I, O, D>
    requires depot { (D.told outside.depot).contents ≡ no_contents }
    requires outputs { HaveNoBytes (O.told outside.outputs) }
    requires triggers { AllByRecursion (IsTrigger (plan_numbers (arc_value plan))) triggers.now }
    ensures { EndsBy (last (starts (arc_value plan) (finish triggers.now (option_map (λ name. name.now) trace.entry))))
        (seen I.told O.told D.told outside) (seen I.told O.told D.told result.outside) result.status }
{
    // That there is a mark for each vertex is told with the plan's numbers.
    plan_facts(&plan);
    let Ok(shared) = Arc::try_clone(&plan) else {
        return refused(alloc, outside, &Fault::Memory);
    };
    let ran = run_job(
        alloc,
        shared,
        triggers,
        trace.is_some(),
        outside.outputs,
        outside.depot,
    );
    let mut outside = Outside {
        inputs: outside.inputs,
        outputs: ran.outputs,
        depot: ran.depot,
    };
    match ran.answer {
        Ok(told) => match tell_run(
            &mut outside.inputs,
            &mut outside.outputs,
            plan.job(),
            trace,
            &told,
        ) {
            Ok(()) => Done { status: 0, outside },
            Err(PutFault::Failed) => refused(alloc, outside, &Fault::Output),
            Err(PutFault::Memory) => refused(alloc, outside, &Fault::Memory),
        },
        Err(stop) => refused(alloc, outside, &fault_of(plan.job(), stop)),
    }
}
