ghost use Rattle.std.specs.Prelude.{◌≡◌, All, IfOk};
ghost use Rattle.std.specs.Arc.{arc_value};
ghost use Rattle.ss_plan.specs.Limit.{IsPlan};
ghost use Rattle.ss_plan.specs.Plan.{AreSourceLists, lists_of};
ghost use Rattle.ss_command.specs.Streams.{IsSourceList};

use ss_elem::Element;
use ss_job::Job;
use ss_plan::{Plan, PlanFault};
use std::alloc::{AllocError, Global};
use std::sync::Arc;

/// The plan of a job with the lists of its sources, as a job that is started has it.
pub(crate) fn shared_plan(
    alloc: Global,
    job: Job,
    lists: Vec<Vec<Element>>,
) -> Result<Arc<Plan>, AllocError>
    requires lists { AreSourceLists job (lists_of lists.items) }
    requires each { All (IsSourceList job) (lists_of lists.items) }
    ensures plan { IfOk result (λ plan. arc_value plan ≡ record { job = job; lists = lists_of lists.items }) }
    ensures is { IfOk result (λ plan. IsPlan (arc_value plan)) }
{
    let plan = match Plan::of(job, lists) {
        Ok(plan) => plan,
        // Each list was measured when it was read.
        Err(PlanFault::Full { .. }) => unreachable!(),
        Err(PlanFault::Memory) => return Err(AllocError),
    };
    // What every plan keeps.
    let _ = plan.max_elements();
    match Arc::new(alloc, plan) {
        Ok(plan) => Ok(plan),
        Err(_) => Err(AllocError),
    }
}
