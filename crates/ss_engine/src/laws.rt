ghost use Rattle.ss_engine.specs.Laws.{ActLaws, JointJobsHaveWhatIsNeeded};

use ss_state::{
    acts_keep_joint, nothing_durable_falls, nothing_needed_is_gone, pass_collects_exactly,
};

/// What is true of the acts of every running job.
pub(crate) fn act_laws()
    ensures { ActLaws }
{
    acts_keep_joint();
    nothing_durable_falls();
    nothing_needed_is_gone();
    pass_collects_exactly();
}

/// A joint job, however it came about, has all that is needed to start every vertex again from what is stored: after a
/// start, around a vault, after a wipe, and after every list of acts, whether all were made or one met a fault.
pub fn joint_jobs_have_what_is_needed()
    ensures { JointJobsHaveWhatIsNeeded }
{
    act_laws();
}
