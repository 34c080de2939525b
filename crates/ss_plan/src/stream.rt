ghost use Rattle.std.specs.Prelude.{◌≡◌, ◌<◌, ◌≤◌, ℕ, true, [], length, map, get_or, All, IfOk};
ghost use Rattle.ss_expr.specs.Operators.{operator_of, IsComputable};
ghost use Rattle.ss_meaning.specs.Jobs.{Takes};
ghost use Rattle.ss_meaning.specs.Meaning.{meaning};
ghost use Rattle.ss_plan.specs.Plan.{inputs_read, lists_of, vertices_of};
ghost use Rattle.ss_plan.specs.Streams.{operated, streams_read, HoldInputs, MayArrive};

use crate::merging::merged;
use crate::operating::operator_output;
use crate::plan::Plan;
use crate::sources::is_source;
use ss_elem::Element;
use ss_expr::Spec;
use ss_meaning::{
    low_never_falls, meaning_is_made_of_the_inputs, meaning_is_whole, merge_keeps_each_input,
};
use ss_water::Node;
use std::alloc::{AllocError, Global};

/// The stream of a vertex, from the streams that it reads.
pub(crate) fn stream_of(
    alloc: Global,
    plan: &Plan,
    v: u32,
    streams: &[Vec<Element>],
) -> Result<Vec<Element>, AllocError>
    requires vertex { v < length plan.now.job.vertices }
    requires before { v ≤ length streams.now }
    requires inputs { HoldInputs (vertices_of plan.now) v (lists_of streams.now) }
    ensures { IfOk result (λ list. list.items ≡ meaning (vertices_of plan.now) v) }
{
    meaning_is_made_of_the_inputs();
    meaning_is_whole();
    let job = plan.job();
    let node = job.graph().node(v);
    match job.spec(v) {
        Some(spec) => operator_stream(alloc, spec, &node, streams),
        None => {
            if is_source(job, v) {
                Vec::from_slice(alloc, plan.source(v))
            } else {
                let input = node.inputs[0] as usize;
                Vec::from_slice(alloc, streams[input].as_slice())
            }
        }
    }
}

/// What an operator gives over the merge of the streams that it reads.
fn operator_stream(
    alloc: Global,
    spec: &Spec,
    node: &Node,
    streams: &[Vec<Element>],
) -> Result<Vec<Element>, AllocError>
    requires takes { Takes (operator_of spec.now) node.now.width }
    requires computable { IsComputable spec.now }
    requires some { 1 ≤ node.now.width }
    requires few { node.now.width ≤ 8 }
    requires inputs { All (λ w. w < length streams.now) (inputs_read node.now) }
    requires arrive { MayArrive (streams_read (lists_of streams.now) node.now) }
    ensures { IfOk result (λ list. list.items ≡ operated spec.now node.now (lists_of streams.now)) }
{
    merge_keeps_each_input();
    low_never_falls();
    let lists = gathered(alloc, node, streams)?;
    let arrived = merged(alloc, lists.as_slice())?;
    operator_output(alloc, spec, node.width, arrived.as_slice())
}

/// The streams that a node reads, in the order of its inputs.
fn gathered<'a>(
    alloc: Global,
    node: &Node,
    streams: &'a [Vec<Element>],
) -> Result<Vec<&'a [Element]>, AllocError>
    requires few { node.now.width ≤ 8 }
    requires inputs { All (λ w. w < length streams.now) (inputs_read node.now) }
    ensures { IfOk result (λ lists. map (λ list. list.now) lists.items ≡ streams_read (lists_of streams.now) node.now) }
{
    let mut lists = Vec::new(alloc);
    for i in 0..node.width {
        let input = node.inputs[i as usize] as usize;
        lists.push(streams[input].as_slice())?;
    }
    Ok(lists)
}
