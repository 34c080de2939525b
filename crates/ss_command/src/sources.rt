ghost use Rattle.std.specs.Prelude.{◌≡◌, ◌⊎◌, ◌<◌, All, OnOk, IfOk, IfErr, length};
ghost use Rattle.ss_outside.specs.Told.{KeepsInputs};
ghost use Rattle.ss_plan.specs.Plan.{lists_of};
ghost use Rattle.ss_command.specs.Ends.{MayHave, WantsMemory};
ghost use Rattle.ss_command.specs.Refusal.{refusal_of};
ghost use Rattle.ss_command.specs.Streams.{AddsVertex, AreLists, IsSourceList, StopsAtVertex, StopsInSources};

use crate::read::read_event_file;
use ss_elem::Element;
use ss_job::{Job, Op};
use ss_outside::Inputs;
use ss_report::Fault;
use std::alloc::Global;

/// The lists of a job's sources, in order, from their files. Each is read, parsed and measured before the next is
/// read.
pub(crate) fn read_sources<'a, I: Inputs>(
    alloc: Global,
    inputs: &mut I,
    job: &'a Job,
) -> Result<Vec<Vec<Element>>, Fault<'a>>
    ensures lists { IfOk result (λ lists.
        AreLists (MayHave (I.told inputs.old)) job.entry.now 0 job.entry.now.vertices (lists_of lists.items)
        × KeepsInputs (I.told inputs.old) (I.told inputs.new)) }
    ensures each { IfOk result (λ lists. All (IsSourceList job.entry.now) (lists_of lists.items)) }
    ensures fault { IfErr result (λ fault.
        StopsInSources (I.told inputs.old) (I.told inputs.new) job.entry.now (refusal_of fault)
        ⊎ WantsMemory (I.told inputs.old) (I.told inputs.new) (refusal_of fault)) }
{
    let mut lists = Vec::new(alloc);
    for v in 0..job.graph().count() {
        match read_vertex(alloc, inputs, job, v, &mut lists) {
            Ok(()) => (),
            Err(fault) => return Err(fault),
        }
    }
    Ok(lists)
}

/// Appends the list of a vertex, if it is a source.
fn read_vertex<'a, I: Inputs>(
    alloc: Global,
    inputs: &mut I,
    job: &'a Job,
    v: u32,
    lists: &mut Vec<Vec<Element>>,
) -> Result<(), Fault<'a>>
    requires { v < length job.now.vertices }
    ensures added { OnOk result (
        AddsVertex (MayHave (I.told inputs.old)) job.entry.now v lists.old.items lists.new.items
        × KeepsInputs (I.told inputs.old) (I.told inputs.new)) }
    ensures fault { IfErr result (λ fault.
        StopsAtVertex (I.told inputs.old) (I.told inputs.new) job.entry.now v (refusal_of fault)
        ⊎ WantsMemory (I.told inputs.old) (I.told inputs.new) (refusal_of fault)) }
{
    if job.op(v) != Op::Source {
        return Ok(());
    }
    let list = match read_event_file(alloc, inputs, job, v, job.file(v), job.late(v)) {
        Ok(list) => list,
        Err(fault) => return Err(fault),
    };
    match lists.push(list) {
        Ok(()) => (),
        Err(_) => return Err(Fault::Memory),
    }
    Ok(())
}
