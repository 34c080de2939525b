use ss_plan::Plan;
use ss_vault::Counts;

/// What all parts of one running job have in common: its plan, and how often its devices had failed when its vault was
/// started. It shows in contracts alone.
#[derive(Drop)]
pub struct CrewPlan {
    /// The plan that is run.
    pub plan: Plan,
    /// The counts of the devices at the start.
    pub started: Counts,
}
