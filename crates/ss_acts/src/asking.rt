ghost use Rattle.ss_acts.specs.Asked.{Accepts, IsAsked, Wants};
ghost use Rattle.ss_acts.specs.Parts.{IsReplicaOf};
ghost use Rattle.ss_vertex.specs.Calls.{IsElementAt};
ghost use Rattle.ss_vertex.specs.Standing.{InstStands};

use crate::facts::act_facts;
use crate::fault::EngineFault;
use ss_elem::Element;
use ss_fail::Outcome;
use ss_plan::Plan;
use ss_vertex::{ExecFault, Inst};

/// What a replica asks for where it reads.
#[derive(Clone, Copy, Debug, PartialEq, Eq)]
pub(crate) enum Asked {
    /// Nothing: it isn't ready, and the read comes to this.
    Nothing(Outcome),
    /// Element `n` of its input `input`.
    Item { input: u32, n: u64 },
}

/// What the replica asks for.
pub(crate) fn asks(plan: &Plan, inst: &Inst) -> Asked
    requires { InstStands plan.now inst.now }
    ensures { IsAsked plan.now inst.now result }
{
    act_facts(plan);
    if !inst.is_up() {
        return Asked::Nothing(Outcome::Down);
    }
    let left = inst.left();
    if left > 0 {
        return Asked::Nothing(Outcome::Pending { left });
    }
    match inst.wants() {
        None => Asked::Nothing(Outcome::Ended),
        Some((input, n)) => Asked::Item { input, n },
    }
}

/// The replica gets the element that it asks for.
pub(crate) fn accept(
    plan: &Plan,
    inst: &mut Inst,
    input: u32,
    n: u64,
    x: &Element,
) -> Result<Outcome, EngineFault>
    requires stands { InstStands plan.now inst.old }
    requires wants { Wants plan.now inst.old input n }
    requires element { IsElementAt plan.now inst.old.v (input, n) x.now }
    ensures replica { IsReplicaOf plan.now inst.old.v inst.new }
    ensures answer { Accepts plan.now inst.old input n result inst.new }
{
    act_facts(plan);
    match inst.execute(plan, x) {
        Ok(()) => Ok(Outcome::Got { input, n }),
        Err(fault) => match fault {
            ExecFault::Full { reached } => Err(EngineFault::Full {
                v: inst.v(),
                reached,
            }),
            ExecFault::Memory => Err(EngineFault::Memory),
        },
    }
}
