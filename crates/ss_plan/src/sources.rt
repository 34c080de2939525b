ghost use Rattle.std.specs.Prelude.{◌≡◌, ◌≤◌, ◌<◌, ◌+◌, ℕ, true, false, length, Some, IfSome, IfNone, if◌then◌else◌};
ghost use Rattle.ss_job.specs.JobText.{op_of};
ghost use Rattle.ss_job.specs.declared.op.Op.TheVariants as op;
ghost use Rattle.ss_plan.specs.Plan.{AreSourceLists, lists_of, plan_of, sources_before};
ghost use Rattle.ss_plan.specs.Limit.{IsSourcesFault, AreWithin};
ghost use Rattle.ss_plan.specs.declared.fault.PlanFault.TheVariants.{Full};

use ss_elem::Element;
use ss_job::{Job, Op};

/// How many of the vertices before this one are sources.
pub(crate) fn place_of(job: &Job, v: u32) -> usize
    requires { v ≤ length job.now.vertices }
    ensures { result ≡ sources_before job.now v }
{
    let mut place = 0;
    for u in 0..v {
        if is_source(job, u) {
            place += 1;
        }
    }
    place
}

/// The first source with a list that is longer than the job allows, and the length.
pub(crate) fn long_source(job: &Job, lists: &[Vec<Element>]) -> Option<(u32, u64)>
    requires { AreSourceLists job.now (lists_of lists.now) }
    ensures found { IfSome result (λ long. IsSourcesFault (plan_of job.now lists.now) (Full long.0 long.1)) }
    ensures none { IfNone result (AreWithin (plan_of job.now lists.now)) }
{
    let limit = job.max_elements();
    let mut place = 0;
    for v in 0..job.graph().count() {
        if is_source(job, v) {
            let reached = lists[place].len() as u64;
            if reached > limit {
                return Some((v, reached));
            }
            place += 1;
        }
    }
    None
}

/// Whether a vertex is a source.
#[tactic(auto, using(crate::proofs::SourcePlaces::sources_next))]
pub(crate) fn is_source(job: &Job, v: u32) -> bool
    requires { v < length job.now.vertices }
    ensures source { result ≡ true → op_of job.now v ≡ Some op.Source }
    ensures other { result ≡ false → op_of job.now v ≡ Some op.Source → ⊥ }
    ensures next { sources_before job.now (v + 1) ≡ sources_before job.now v + (if result then 1 else 0) }
{
    match job.op(v) {
        Op::Source => true,
        Op::Select => false,
        Op::Union => false,
        Op::Window => false,
        Op::Join => false,
        Op::Session => false,
        Op::Except => false,
        Op::Sink => false,
    }
}
