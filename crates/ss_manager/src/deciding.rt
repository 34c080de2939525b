ghost use Rattle.std.specs.Prelude.{◌≡◌};
ghost use Rattle.ss_frames.specs.Plans.{plan_numbers};
ghost use Rattle.ss_state.specs.Numbers.{vertex};
ghost use Rattle.ss_state.specs.Rule.{rule};
ghost use Rattle.ss_vertex.specs.Inst.{inst_numbers};
ghost use Rattle.ss_vertex.specs.Standing.{InstStands};

use crate::snapping::{is_numbered, is_snap_due};
use ss_fail::Act;
use ss_plan::Plan;
use ss_vertex::Inst;

/// The next act of replica `r` of vertex `v`, of which `last` is the newest stored snapshot: one that is down loads,
/// one that has something to write writes it, and else it stores a snapshot that is due, or reads. A replica that has
/// read everything makes a write, which tells that nothing is left.
pub fn next_act(plan: &Plan, v: u32, r: u32, inst: &Inst, last: u64) -> Act
    requires vertex { inst.now.v ≡ v }
    requires stands { InstStands plan.now inst.now }
    ensures { result ≡ rule (vertex (plan_numbers plan.now) v) v r (inst_numbers inst.now) last }
{
    if !inst.is_up() {
        return Act::Load { v, r };
    }
    if inst.left() > 0 {
        return Act::Write { v, r };
    }
    if is_snap_due(plan, v, inst, last) {
        return Act::Snap { v, r };
    }
    plan.max_elements();
    is_numbered(plan, inst);
    match inst.wants() {
        Some(_) => Act::Read { v, r },
        None => Act::Write { v, r },
    }
}
