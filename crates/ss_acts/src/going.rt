ghost use Rattle.std.specs.Prelude.{◌≡◌, ℕ, List};
ghost use Rattle.ss_acts.specs.Leaves.{LeavesInst, LeavesTail};
ghost use Rattle.ss_elem.specs.declared.element.Element.{Element};
ghost use Rattle.ss_plan.specs.Plan.{PlanText};
ghost use Rattle.ss_state.specs.Acts.{crash_act, lose_act};
ghost use Rattle.ss_tail.specs.Held.{Stands};
ghost use Rattle.ss_vertex.specs.Inst.{inst_numbers};
ghost use Rattle.ss_vertex.specs.Standing.{InstStands};

use ss_fail::Outcome;
use ss_tail::Tail;
use ss_vertex::Inst;

/// A replica goes down.
pub fn act_crash(inst: &mut Inst) -> Outcome
    ensures vertex { inst.new.v ≡ inst.old.v }
    ensures stands { (plan : PlanText) → InstStands plan inst.old → InstStands plan inst.new }
    ensures answer { LeavesInst (crash_act (inst_numbers inst.old)) inst.new result }
{
    if !inst.is_up() {
        return Outcome::Down;
    }
    inst.crash();
    Outcome::Crashed
}

/// The elements of a tail are lost.
pub fn act_lose(tail: &mut Tail) -> Outcome
    ensures stands { (list : List Element) (most : ℕ) → Stands list most tail.old → Stands list most tail.new }
    ensures answer { LeavesTail (lose_act tail.old.numbers) tail.new result }
{
    Outcome::Lost { count: tail.lose() }
}
