ghost use Rattle.std.specs.Prelude.{◌≡◌, ◌+◌, ◌<◌, ◌==◌, ◌&&◌, ◌||◌, nat_le, not, true, false, length, MatchOption};
ghost use Rattle.ss_frames.specs.Plans.{plan_numbers};
ghost use Rattle.ss_manager.specs.Kept.{IsPolicyOf};
ghost use Rattle.ss_state.specs.Numbers.{is_inner, vertex};
ghost use Rattle.ss_state.specs.Rule.{snap_due as snap_due_of};
ghost use Rattle.ss_vertex.specs.Inst.{is_up, n_of};
ghost use Rattle.ss_vertex.specs.Laws.{IsNumbered};
ghost use Rattle.ss_vertex.specs.Standing.{InstStands};

use ss_frames::plans_have_numbers;
use ss_job::Policy;
use ss_plan::{Plan, vertices_by_number};
use ss_vertex::{Inst, instances_are_numbered};

/// Whether an operator that has accepted `n` elements, of which the newest stored snapshot has `last`, and that
/// remembers `held` entries, should store a snapshot.
pub fn snap_due(policy: Policy, n: u64, last: u64, held: u64) -> bool
    ensures { result ≡ (nat_le (last + policy.every) n && (not policy.replay || held == 0)) }
{
    n >= last && n - last >= policy.every && (!policy.replay || held == 0)
}

/// The same of instance `inst` of vertex `v`, which is up, where `last` is the newest stored snapshot. Of a source it
/// never is.
pub fn is_snap_due(plan: &Plan, v: u32, inst: &Inst, last: u64) -> bool
    requires vertex { inst.now.v ≡ v }
    requires stands { InstStands plan.now inst.now }
    requires up { is_up inst.now ≡ true }
    ensures { result ≡ snap_due_of (vertex (plan_numbers plan.now) v) (n_of inst.now) last }
{
    is_numbered(plan, inst);
    match policy_of(plan, v) {
        Some(policy) => snap_due(policy, inst.n(), last, inst.held()),
        None => false,
    }
}

/// How an operator is kept safe; `None` of a source.
fn policy_of(plan: &Plan, v: u32) -> Option<Policy>
    requires { v < length plan.now.job.graph }
    ensures { MatchOption result (is_inner (vertex (plan_numbers plan.now) v).kind ≡ false)
        (IsPolicyOf (vertex (plan_numbers plan.now) v)) }
{
    plan.max_elements();
    plans_have_numbers();
    match plan.job().spec(v) {
        Some(_) => Some(plan.job().policy(v)),
        None => None,
    }
}

/// What the laws of instances say of one that stands.
pub fn is_numbered(plan: &Plan, inst: &Inst)
    requires { InstStands plan.now inst.now }
    ensures numbered { IsNumbered plan.now (vertex (plan_numbers plan.now) inst.now.v) inst.now }
    ensures is_vertex { inst.now.v < length plan.now.job.graph }
{
    plan.max_elements();
    vertices_by_number();
    instances_are_numbered();
}
