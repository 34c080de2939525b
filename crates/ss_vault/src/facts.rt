//! What the laws below say, gathered: these functions do nothing when they run.
ghost use Rattle.ss_plan.specs.Limit.{IsPlan};
ghost use Rattle.ss_plan.specs.Plan.{PlanText};
ghost use Rattle.ss_vault.specs.Facts.{CollectionFacts, PlanFacts, RunFacts, SnapshotFacts};

use ss_frames::{
    first_frames_are_empty, frames_have_codes, plans_have_numbers, within_is_may_accept,
};
use ss_meaning::meaning_is_whole;
use ss_plan::{Plan, plans_mean_jobs, vertices_by_number};
use ss_state::{
    entries_keep_sound, first_state_is_joint, marks_are_least, nothing_needed_is_gone,
    pass_collects_exactly,
};

/// What the laws of runs say.
pub(crate) fn run_facts()
    ensures { RunFacts }
{
    entries_keep_sound();
    first_state_is_joint();
}

/// What the laws of collection say.
pub(crate) fn collection_facts()
    ensures { CollectionFacts }
{
    marks_are_least();
    nothing_needed_is_gone();
    pass_collects_exactly();
}

/// What the laws of plans say of this one: among others which of its vertices give streams, and which are operators or
/// sinks, as the calls of its vault ask.
pub fn plan_facts(plan: &Plan)
    ensures { PlanFacts plan.now }
{
    let _most = plan.max_elements();
    meaning_is_whole();
    plans_mean_jobs();
    plans_have_numbers();
    vertices_by_number();
}

/// What they say of the snapshots of its operators.
pub(crate) fn snapshot_facts(plan: &Plan)
    ensures { SnapshotFacts plan.now }
{
    let _most = plan.max_elements();
    every_snapshot_facts();
}

/// What they say of the snapshots of every plan.
pub(crate) fn every_snapshot_facts()
    ensures { (plan : PlanText) → IsPlan plan → SnapshotFacts plan }
{
    plans_have_numbers();
    first_frames_are_empty();
    frames_have_codes();
    within_is_may_accept();
}
