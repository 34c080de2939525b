//! What arrives at a vertex, from the streams of the vertices that it reads, each computed as a whole.
ghost use Rattle.std.specs.Prelude.{◌≡◌, ◌<◌, length, IfOk, IsSome, Some};
ghost use Rattle.ss_job.specs.JobText.{op_of, spec_of};
ghost use Rattle.ss_job.specs.declared.op.Op.TheVariants as op;
ghost use Rattle.ss_meaning.specs.Meaning.{meaning};
ghost use Rattle.ss_plan.specs.Plan.{vertices_of};
ghost use Rattle.ss_state.specs.NumbersOfMeaning.{GivesStream};
ghost use Rattle.ss_vertex.specs.Arriving.{taken};
ghost use Rattle.ss_vertex.specs.Calls.{IsElementAt};

use ss_elem::Element;
use ss_meaning::meaning_is_made_of_the_inputs;
use ss_plan::{Plan, PlanFault, plain, plans_mean_jobs, vertices_by_number};
use fixtures::is_source;
use std::alloc::Global;
use std::process::Abort;
use std::test::Fail;

/// The vertex, which the plan has.
fn checked(rt: &impl Abort, plan: &Plan, v: u32) -> u32
    ensures vertex { result < length plan.now.job.vertices }
    ensures same { result ≡ v }
{
    let count = plan.job().graph().count();
    assert!(rt; v < count);
    v
}

/// The vertex, which is an operator.
pub(crate) fn operator(rt: &impl Abort, plan: &Plan, v: u32) -> u32
    ensures vertex { result < length plan.now.job.vertices }
    ensures operator { IsSome (spec_of plan.now.job result) }
    ensures same { result ≡ v }
{
    let v = checked(rt, plan, v);
    assert!(rt; plan.job().spec(v).is_some());
    v
}

/// The vertex, which is a source.
pub(crate) fn source(rt: &impl Abort, plan: &Plan, v: u32) -> u32
    ensures vertex { result < length plan.now.job.vertices }
    ensures source { op_of plan.now.job result ≡ Some op.Source }
    ensures same { result ≡ v }
{
    let v = checked(rt, plan, v);
    assert!(rt; is_source(plan.job(), v));
    v
}

/// The vertex, which gives a stream.
pub(crate) fn giving(rt: &impl Abort, plan: &Plan, v: u32) -> u32
    ensures stream { GivesStream (vertices_of plan.now) result }
    ensures same { result ≡ v }
{
    plan.max_elements();
    vertices_by_number();
    let v = checked(rt, plan, v);
    if is_source(plan.job(), v) {
        v
    } else {
        operator(rt, plan, v)
    }
}

/// The stream of a vertex alone.
fn stream_of(rt: &impl Abort, alloc: Global, plan: &Plan, v: u32) -> Result<Vec<Element>, PlanFault>
    ensures { IfOk result (λ list. list.items ≡ meaning (vertices_of plan.now) v) }
{
    plain(alloc, plan, checked(rt, plan, v))
}

/// The vertex whose stream a vertex takes as this input; a source takes its own.
fn taken_from(rt: &impl Abort, plan: &Plan, v: u32, input: u32) -> u32
    ensures { taken (vertices_of plan.now) v input ≡ meaning (vertices_of plan.now) result }
{
    plan.max_elements();
    plans_mean_jobs();
    vertices_by_number();
    meaning_is_made_of_the_inputs();
    let v = checked(rt, plan, v);
    if is_source(plan.job(), v) {
        return v;
    }
    let v = operator(rt, plan, v);
    let node = plan.job().graph().node(v);
    assert!(rt; input < node.width);
    assert!(rt; node.width <= 8);
    node.inputs[input as usize]
}

/// The element with this number of the stream that a vertex takes as this input.
pub(crate) fn element_at(
    rt: &impl Abort,
    alloc: Global,
    plan: &Plan,
    v: u32,
    input: u32,
    n: u64,
) -> Result<Element, Fail>
    ensures { IfOk result (IsElementAt plan.now v (input, n)) }
{
    let from = taken_from(rt, plan, v, input);
    let stream = stream_of(rt, alloc, plan, from)?;
    let most = plan.max_elements();
    assert!(rt; n < most);
    match stream.get(n as usize) {
        Some(x) => Ok(*x),
        None => Err(Fail::new("no such element")),
    }
}
