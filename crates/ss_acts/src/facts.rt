ghost use Rattle.ss_acts.specs.Facts.{ActFacts};

use ss_frames::{plans_have_numbers, within_is_may_accept};
use ss_plan::{Plan, plans_mean_jobs, vertices_by_number};
use ss_vault::plan_facts;
use ss_vertex::{instances_are_numbered, snapshots_fit};

/// What the laws of plans and of instances say of this plan.
pub fn act_facts(plan: &Plan)
    ensures { ActFacts plan.now }
{
    plan_facts(plan);
    plans_mean_jobs();
    vertices_by_number();
    plans_have_numbers();
    within_is_may_accept();
    instances_are_numbered();
    snapshots_fit();
}
