ghost use Rattle.std.specs.Prelude.{◌≡◌, ◌<◌, ◌≤◌, ℕ, true, false, [], length, IfOk, IfErr, OnOk};
ghost use Rattle.ss_meaning.specs.Meaning.{meaning};
ghost use Rattle.ss_plan.specs.Limit.{IsLongAmong, IsStreamsFault};
ghost use Rattle.ss_plan.specs.Plan.{lists_of, vertices_of};
ghost use Rattle.ss_plan.specs.Streams.{is_wanted, AreWanted, HoldInputs, IsClosed};

use crate::fault::PlanFault;
use crate::plan::Plan;
use crate::stream::stream_of;
use ss_elem::Element;
use std::alloc::{AllocError, Global};

/// The streams that are wanted, each computed once, in the order of the vertices; of the other vertices none. Refused
/// at the first that is longer than the job allows.
pub(crate) fn streams_wanted(
    alloc: Global,
    plan: &Plan,
    wanted: &[bool],
) -> Result<Vec<Vec<Element>>, PlanFault>
    requires many { length wanted.now ≡ length plan.now.job.vertices }
    requires closed { IsClosed (vertices_of plan.now) wanted.now }
    ensures streams { IfOk result (λ streams. AreWanted plan.now wanted.now (lists_of streams.items)) }
    ensures within { OnOk result ((v : ℕ) → v < length wanted.now → IsLongAmong (is_wanted wanted.now) plan.now v → ⊥) }
    ensures fault { IfErr result (IsStreamsFault (is_wanted wanted.now) plan.now) }
{
    let job = plan.job();
    let limit = job.max_elements();
    let mut streams = Vec::new(alloc);
    for v in 0..job.graph().count() {
        let stream = match stream_if(alloc, plan, v, wanted[v as usize], streams.as_slice()) {
            Ok(stream) => stream,
            Err(_) => return Err(PlanFault::Memory),
        };
        if stream.as_slice().len() as u64 > limit {
            return Err(PlanFault::Full {
                v,
                reached: limit + 1,
            });
        }
        match streams.push(stream) {
            Ok(()) => (),
            Err(_) => return Err(PlanFault::Memory),
        }
    }
    Ok(streams)
}

/// The stream of a vertex where it is wanted, and else no elements.
fn stream_if(
    alloc: Global,
    plan: &Plan,
    v: u32,
    wanted: bool,
    streams: &[Vec<Element>],
) -> Result<Vec<Element>, AllocError>
    requires vertex { v < length plan.now.job.vertices }
    requires before { v ≤ length streams.now }
    requires inputs { wanted ≡ true → HoldInputs (vertices_of plan.now) v (lists_of streams.now) }
    ensures wanted { IfOk result (λ list. wanted ≡ true → list.items ≡ meaning (vertices_of plan.now) v) }
    ensures other { IfOk result (λ list. wanted ≡ false → list.items ≡ []) }
{
    if wanted {
        stream_of(alloc, plan, v, streams)
    } else {
        Ok(Vec::new(alloc))
    }
}
