ghost use Rattle.std.specs.Prelude.{◌≡◌, ◌<◌, length};
ghost use Rattle.ss_acts.specs.Parts.{vertex_of};
ghost use Rattle.ss_frames.specs.Plans.{plan_numbers};
ghost use Rattle.ss_state.specs.Numbers.{IsOperator, IsStream, input, is_inner};

use ss_frames::plans_have_numbers;
use ss_plan::{Plan, vertices_by_number};
use ss_vault::plan_facts;
use ss_water::Kind;

/// Whether vertex `v`, which gives a stream, is an operator.
pub fn is_operator(plan: &Plan, v: u32) -> bool
    requires { IsStream (plan_numbers plan.now) v }
    ensures { result ≡ is_inner (vertex_of plan.now v).kind }
{
    plan_facts(plan);
    match plan.job().graph().node(v).kind {
        Kind::Inner => true,
        Kind::Source | Kind::Sink => false,
    }
}

/// The stream that operator `v` reads as its input `i`.
pub fn stream_read(plan: &Plan, v: u32, i: u32) -> u32
    requires operator { IsOperator (plan_numbers plan.now) v }
    requires input { i < length (vertex_of plan.now v).inputs }
    ensures { result ≡ input (vertex_of plan.now v) i }
{
    plan_facts(plan);
    vertices_by_number();
    plans_have_numbers();
    plan.job().graph().node(v).inputs[i as usize]
}
