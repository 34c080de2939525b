ghost use Rattle.std.specs.Prelude.{◌≡◌, ◌≤◌, ℕ, List, is_ok, length};
ghost use Rattle.ss_acts.specs.Calls.{Loads};
ghost use Rattle.ss_acts.specs.Coming.{ComesUp, begun_behind};
ghost use Rattle.ss_acts.specs.Leaves.{AsksVault};
ghost use Rattle.ss_acts.specs.Parts.{IsReplicaOf, IsTailOf, vertex_of};
ghost use Rattle.ss_acts.specs.Readings.{must_fetch};
ghost use Rattle.ss_elem.specs.declared.element.Element.{Element};
ghost use Rattle.ss_meaning.specs.Meaning.{meaning};
ghost use Rattle.ss_plan.specs.Plan.{vertices_of};
ghost use Rattle.ss_state.specs.Numbers.{is_inner};
ghost use Rattle.ss_tail.specs.Held.{Stands};
ghost use Rattle.ss_vault.specs.Sound.{Sound};
ghost use Rattle.ss_vault.specs.Told.{durable_of, vault_told};
ghost use Rattle.ss_vertex.specs.Standing.{InstStands};

use crate::facts::act_facts;
use crate::fault::EngineFault;
use crate::kinds::is_operator;
use ss_fail::Outcome;
use ss_frames::frames_have_codes;
use ss_outside::{Depot, Outputs};
use ss_plan::Plan;
use ss_tail::Tail;
use ss_vault::Vault;
use ss_vertex::Inst;

/// A replica comes up from what is stored of its vertex, beside its own tail.
pub fn act_load<O: Outputs, D: Depot>(
    plan: &Plan,
    inst: &mut Inst,
    tail: &mut Tail,
    vault: &mut Vault<O, D>,
) -> Result<Outcome, EngineFault>
    requires stands { InstStands plan.now inst.old }
    requires tail { IsTailOf plan.now inst.old.v tail.old }
    requires sound { Sound plan.now (vault_told O.told D.told vault.old) }
    ensures replica { IsReplicaOf plan.now inst.old.v inst.new }
    ensures tail { IsTailOf plan.now inst.old.v tail.new }
    ensures sound { Sound plan.now (vault_told O.told D.told vault.new) }
    ensures answer { Loads plan.now inst.old tail.old (vault_told O.told D.told vault.old)
        result inst.new tail.new (vault_told O.told D.told vault.new) }
    ensures asks { AsksVault (must_fetch plan.now inst.old) (vault_told O.told D.told vault.old) (is_ok result)
        (vault_told O.told D.told vault.new) }
    ensures outputs { (vault_told O.told D.told vault.new).outputs ≡ (vault_told O.told D.told vault.old).outputs }
{
    act_facts(plan);
    if inst.is_up() {
        return Ok(Outcome::Up);
    }
    let dur = vault.dur(inst.v());
    let end = tail.end().max(dur);
    match come_up(plan, inst, vault, end) {
        Ok(()) => {
            begin(tail, dur);
            Ok(Outcome::Loaded { n: inst.n() })
        }
        Err(fault) => Err(fault),
    }
}

/// A replica comes up behind at most `end` elements given, where no more are stored of its vertex.
fn come_up<O: Outputs, D: Depot>(
    plan: &Plan,
    inst: &mut Inst,
    vault: &mut Vault<O, D>,
    end: u64,
) -> Result<(), EngineFault>
    requires stands { InstStands plan.now inst.old }
    requires sound { Sound plan.now (vault_told O.told D.told vault.old) }
    requires stored { (durable_of (vault_told O.told D.told vault.old) inst.old.v).dur ≤ end }
    requires within { end ≤ length (meaning (vertices_of plan.now) inst.old.v) }
    ensures replica { IsReplicaOf plan.now inst.old.v inst.new }
    ensures sound { Sound plan.now (vault_told O.told D.told vault.new) }
    ensures answer { ComesUp plan.now inst.old end (vault_told O.told D.told vault.old)
        result inst.new (vault_told O.told D.told vault.new) }
    ensures asks { AsksVault (is_inner (vertex_of plan.now inst.old.v).kind) (vault_told O.told D.told vault.old)
        (is_ok result) (vault_told O.told D.told vault.new) }
    ensures outputs { (vault_told O.told D.told vault.new).outputs ≡ (vault_told O.told D.told vault.old).outputs }
{
    act_facts(plan);
    frames_have_codes();
    let v = inst.v();
    if !is_operator(plan, v) {
        inst.load_source(end);
        return Ok(());
    }
    match vault.fetch(plan, v, end) {
        Ok(frame) => match inst.load(plan, &frame) {
            Ok(()) => Ok(()),
            Err(_) => Err(EngineFault::Memory),
        },
        Err(fault) => Err(EngineFault::of_vault(fault)),
    }
}

/// A tail begins anew where the stored elements reach past its end.
fn begin(tail: &mut Tail, dur: u64)
    ensures begun { tail.new ≡ begun_behind tail.old dur }
    ensures standing { (list : List Element) (most : ℕ) → Stands list most tail.old →
        dur ≤ length list → dur ≤ most → Stands list most tail.new }
{
    if dur > tail.end() {
        tail.restart(dur);
    }
}
