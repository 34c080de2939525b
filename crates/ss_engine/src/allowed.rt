ghost use Rattle.std.specs.Prelude.{◌≡◌, ◌<◌, ◌↔◌, length, IsTrue};
ghost use Rattle.ss_acts.specs.Parts.{vertex_of};
ghost use Rattle.ss_engine.specs.Applies.{MayApply};
ghost use Rattle.ss_frames.specs.Plans.{plan_numbers};
ghost use Rattle.ss_plan.specs.Plan.{vertices_of};
ghost use Rattle.ss_state.specs.Numbers.{IsSink, IsStream};
ghost use Rattle.ss_state.specs.NumbersOfMeaning.{GivesStream};
ghost use Rattle.ss_state.specs.Step.{IsReplica};

use ss_acts::act_facts;
use ss_fail::Act;
use ss_plan::Plan;
use ss_water::Kind;

/// Whether an act can be made on a job of this plan: it names vertices and replicas of the job of the kinds that it
/// needs, and a flush stores 1 to 64 elements.
pub fn may_apply(plan: &Plan, act: &Act) -> bool
    ensures { IsTrue result ↔ MayApply plan.now act.now }
{
    match *act {
        Act::Read { v, r } => is_replica(plan, v, r),
        Act::Write { v, r } => is_replica(plan, v, r),
        Act::Snap { v, r } => is_replica(plan, v, r),
        Act::Crash { v, r } => is_replica(plan, v, r),
        Act::Load { v, r } => is_replica(plan, v, r),
        Act::Lose { v } => is_stream(plan, v),
        Act::Flush { v, count } => is_stream(plan, v) && 1 <= count && count <= 64,
        Act::Take { k } => is_sink(plan, k),
        Act::Collect { v } => is_stream(plan, v),
        Act::Trim { v } => is_stream(plan, v),
        Act::Pass => true,
    }
}

/// How many replicas of a vertex run.
pub(crate) fn replica_count(plan: &Plan, v: u32) -> u32
    requires { v < length (plan_numbers plan.now).vertices }
    ensures count { result ≡ (vertex_of plan.now v).replicas }
    ensures stream { 0 < result → GivesStream (vertices_of plan.now) v }
{
    act_facts(plan);
    let role = plan.job().roles()[v as usize];
    match role.kind {
        Kind::Source | Kind::Inner => role.replicas,
        Kind::Sink => 0,
    }
}

/// How many vertices there are.
pub fn vertex_count(plan: &Plan) -> u32
    ensures { result ≡ length (plan_numbers plan.now).vertices }
{
    act_facts(plan);
    plan.job().graph().count()
}

/// What a vertex is.
fn kind_of(plan: &Plan, v: u32) -> Kind
    requires { v < length (plan_numbers plan.now).vertices }
    ensures { result ≡ (vertex_of plan.now v).kind }
{
    act_facts(plan);
    plan.job().graph().node(v).kind
}

/// Whether a vertex has this number and gives a stream.
pub fn is_stream(plan: &Plan, v: u32) -> bool
    ensures { IsTrue result ↔ IsStream (plan_numbers plan.now) v }
{
    if v >= vertex_count(plan) {
        return false;
    }
    match kind_of(plan, v) {
        Kind::Source | Kind::Inner => true,
        Kind::Sink => false,
    }
}

/// Whether a sink has this number.
pub fn is_sink(plan: &Plan, k: u32) -> bool
    ensures { IsTrue result ↔ IsSink (plan_numbers plan.now) k }
{
    if k >= vertex_count(plan) {
        return false;
    }
    match kind_of(plan, k) {
        Kind::Source | Kind::Inner => false,
        Kind::Sink => true,
    }
}

/// Whether a vertex gives a stream and has a replica of this number.
fn is_replica(plan: &Plan, v: u32, r: u32) -> bool
    ensures { IsTrue result ↔ IsReplica (plan_numbers plan.now) v r }
{
    if !is_stream(plan, v) {
        return false;
    }
    r < replica_count(plan, v)
}
