ghost use Rattle.ss_plan.specs.Laws.{PlansMeanJobs, VerticesByNumber};

/// What an accepted job means is within the laws of meaning: its streams are whole, and their times below 2^63.
pub fn plans_mean_jobs()
    ensures { PlansMeanJobs }
{}

/// The vertices that a plan means stand under the numbers of its job.
pub fn vertices_by_number()
    ensures { VerticesByNumber }
{}
