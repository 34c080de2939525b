ghost use Rattle.std.specs.Prelude.{◌≡◌, ◌<◌, ◌≤◌, ◌⊎◌, ℕ, true, false, length, slice_index, All};
ghost use Rattle.ss_plan.specs.Dependence.{depends_on, IsInput};
ghost use Rattle.ss_plan.specs.Plan.{vertices_of};
ghost use Rattle.ss_plan.specs.Streams.{is_wanted, IsClosed};

use crate::plan::Plan;
use ss_water::Node;

/// Marks what the stream of `v` is computed from: `v` itself, and each vertex that a marked one reads.
pub(crate) fn mark_needed(plan: &Plan, v: u32, marked: &mut [bool])
    requires vertex { v < length plan.now.job.vertices }
    requires many { length marked.old ≡ length plan.now.job.vertices }
    requires none { All (λ mark. mark ≡ false) marked.old }
    ensures closed { IsClosed (vertices_of plan.now) marked.new }
    ensures exact { (u : ℕ) → is_wanted marked.new u ≡ depends_on (vertices_of plan.now) v u }
{
    let graph = plan.job().graph();
    marked[v as usize] = true;
    for u in (0..v + 1).rev() {
        if marked[u as usize] {
            mark_inputs(&graph.node(u), marked);
        }
    }
}

/// Marks what a node reads.
fn mark_inputs(node: &Node, marked: &mut [bool])
    requires few { node.now.width ≤ 8 }
    requires within { (i : ℕ) → i < node.now.width → slice_index node.now.inputs i < length marked.old }
    ensures kept { (u : ℕ) → is_wanted marked.old u ≡ true → is_wanted marked.new u ≡ true }
    ensures inputs { (u : ℕ) → IsInput node.now u → is_wanted marked.new u ≡ true }
    ensures only { (u : ℕ) → is_wanted marked.new u ≡ true → (is_wanted marked.old u ≡ true) ⊎ IsInput node.now u }
{
    for i in 0..node.width {
        let input = node.inputs[i as usize] as usize;
        marked[input] = true;
    }
}
