ghost use Rattle.std.specs.Prelude.{◌≡◌, ◌<◌};
ghost use Rattle.ss_acts.specs.Calls.{Writes};
ghost use Rattle.ss_acts.specs.Parts.{IsReplicaOf, IsTailOf};
ghost use Rattle.ss_acts.specs.Told.{inst_written, write_outcome};
ghost use Rattle.ss_plan.specs.Plan.{PlanText};
ghost use Rattle.ss_vertex.specs.Inst.{left_of};
ghost use Rattle.ss_vertex.specs.Standing.{InstStands};

use crate::facts::act_facts;
use crate::fault::EngineFault;
use ss_fail::Outcome;
use ss_plan::Plan;
use ss_tail::{Tail, Wrote};
use ss_vertex::Inst;

/// A replica writes the first of the elements that it has made to the tail of its vertex.
pub fn act_write(plan: &Plan, inst: &mut Inst, tail: &mut Tail) -> Result<Outcome, EngineFault>
    requires stands { InstStands plan.now inst.old }
    requires tail { IsTailOf plan.now inst.old.v tail.old }
    ensures replica { IsReplicaOf plan.now inst.old.v inst.new }
    ensures tail { IsTailOf plan.now inst.old.v tail.new }
    ensures answer { Writes plan.now inst.old tail.old result inst.new tail.new }
{
    act_facts(plan);
    if !inst.is_up() {
        return Ok(Outcome::Down);
    }
    match inst.next_out() {
        None => {
            let end = tail.end();
            if inst.next() > end {
                inst.crash();
                return Ok(Outcome::Gap { end });
            }
            Ok(Outcome::Idle)
        }
        Some((n, x)) => match tail.write(n, &x) {
            Ok(wrote) => Ok(wrote_one(inst, n, wrote)),
            Err(_) => Err(EngineFault::Memory),
        },
    }
}

/// A replica offered its first output left, which has number `n`, to its tail.
fn wrote_one(inst: &mut Inst, n: u64, wrote: Wrote) -> Outcome
    requires { 0 < left_of inst.old }
    ensures outcome { result ≡ write_outcome n wrote }
    ensures inst { inst.new ≡ inst_written inst.old wrote }
    ensures stands { (plan : PlanText) → InstStands plan inst.old → InstStands plan inst.new }
{
    match wrote {
        Wrote::Gap { end } => {
            inst.crash();
            Outcome::Gap { end }
        }
        Wrote::Stored => {
            inst.done();
            Outcome::Stored { n }
        }
        Wrote::Known => {
            inst.done();
            Outcome::Known { n }
        }
        Wrote::Old => {
            inst.done();
            Outcome::Old { n }
        }
    }
}
