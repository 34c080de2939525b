ghost use Rattle.ss_command.specs.Computed.{PutsStreams};

use crate::read::too_long;
use crate::write::write_sinks;
use ss_outside::{Outputs, PutFault};
use ss_plan::{Plan, PlanFault, plain_all};
use ss_report::Fault;
use std::alloc::Global;

/// Computes the streams of a plan, and then writes each sink's file, in order.
pub(crate) fn put_streams<'a, O: Outputs>(
    alloc: Global,
    plan: &'a Plan,
    outputs: &mut O,
) -> Result<(), Fault<'a>>
    ensures { PutsStreams plan.entry.now (O.told outputs.old) (O.told outputs.new) result }
{
    let streams = match plain_all(alloc, plan) {
        Ok(streams) => streams,
        Err(PlanFault::Full { v, .. }) => return Err(too_long(plan.job(), v)),
        Err(PlanFault::Memory) => return Err(Fault::Memory),
    };
    match write_sinks(outputs, plan.job(), streams.as_slice()) {
        Ok(()) => Ok(()),
        Err(PutFault::Failed) => Err(Fault::Output),
        Err(PutFault::Memory) => Err(Fault::Memory),
    }
}
