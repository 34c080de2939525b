ghost use Rattle.std.specs.Prelude.{◌≡◌, ◌<◌, ℕ, true, length, IfOk, IfErr, OnOk};
ghost use Rattle.ss_meaning.specs.Meaning.{meaning};
ghost use Rattle.ss_plan.specs.Dependence.{depends_on};
ghost use Rattle.ss_plan.specs.Limit.{IsLongAmong, IsStreamsFault};
ghost use Rattle.ss_plan.specs.Plan.{lists_of, streams_of, vertices_of};
ghost use Rattle.ss_plan.specs.Streams.{every, is_wanted, IsClosed};

use crate::fault::PlanFault;
use crate::needed::mark_needed;
use crate::plan::Plan;
use crate::streams::streams_wanted;
use ss_elem::Element;
use std::alloc::Global;

const MOST_VERTICES: usize = 32;

/// The stream of vertex `v` as a whole, which for a sink is the one that it reads. Only what it is computed from is
/// computed. Refused at the first of these streams, `v`'s own among them, that is longer than the job allows.
pub fn plain(alloc: Global, plan: &Plan, v: u32) -> Result<Vec<Element>, PlanFault>
    requires { v < length plan.now.job.vertices }
    ensures list { IfOk result (λ list. list.items ≡ meaning (vertices_of plan.now) v) }
    ensures within { OnOk result ((u : ℕ) → IsLongAmong (depends_on (vertices_of plan.now) v) plan.now u → ⊥) }
    ensures fault { IfErr result (IsStreamsFault (depends_on (vertices_of plan.now) v) plan.now) }
{
    let mut marked = [false; MOST_VERTICES];
    let count = plan.job().graph().count() as usize;
    mark_needed(plan, v, &mut marked[..count]);
    stream_among(alloc, plan, v, &marked[..count])
}

/// The stream of vertex `v`, where what it is computed from is marked.
fn stream_among(
    alloc: Global,
    plan: &Plan,
    v: u32,
    marked: &[bool],
) -> Result<Vec<Element>, PlanFault>
    requires vertex { v < length plan.now.job.vertices }
    requires many { length marked.now ≡ length plan.now.job.vertices }
    requires closed { IsClosed (vertices_of plan.now) marked.now }
    requires exact { (u : ℕ) → is_wanted marked.now u ≡ depends_on (vertices_of plan.now) v u }
    ensures list { IfOk result (λ list. list.items ≡ meaning (vertices_of plan.now) v) }
    ensures within { OnOk result ((u : ℕ) → IsLongAmong (depends_on (vertices_of plan.now) v) plan.now u → ⊥) }
    ensures fault { IfErr result (IsStreamsFault (depends_on (vertices_of plan.now) v) plan.now) }
{
    match streams_wanted(alloc, plan, marked) {
        Ok(mut streams) => Ok(streams.swap_remove(v as usize)),
        Err(fault) => Err(fault),
    }
}

/// The streams of all vertices of a plan, each computed once as a whole; a sink's is the one that it reads. Refused
/// at the first that is longer than the job allows.
pub fn plain_all(alloc: Global, plan: &Plan) -> Result<Vec<Vec<Element>>, PlanFault>
    ensures streams { IfOk result (λ streams. lists_of streams.items ≡ streams_of plan.now) }
    ensures within { OnOk result ((v : ℕ) → IsLongAmong every plan.now v → ⊥) }
    ensures fault { IfErr result (IsStreamsFault every plan.now) }
{
    let all = [true; MOST_VERTICES];
    let count = plan.job().graph().count() as usize;
    match streams_wanted(alloc, plan, &all[..count]) {
        Ok(streams) => Ok(streams),
        Err(fault) => Err(fault),
    }
}
