ghost use Rattle.std.specs.Prelude.{◌≡◌, ◌<◌, ◌≤◌, Some, is_ok, length, slice_get, true};
ghost use Rattle.ss_acts.specs.Asked.{MayTake, TakesRead, Wants};
ghost use Rattle.ss_acts.specs.Calls.{ReadsList, ReadsTail, ReadsVault};
ghost use Rattle.ss_acts.specs.Leaves.{AsksVault};
ghost use Rattle.ss_acts.specs.Parts.{IsReplicaOf, vertex_of};
ghost use Rattle.ss_acts.specs.Readings.{IsReady, IsWantedTail};
ghost use Rattle.ss_frames.specs.Plans.{plan_numbers};
ghost use Rattle.ss_job.specs.JobText.{op_of};
ghost use Rattle.ss_job.specs.declared.op.Op.TheVariants as op;
ghost use Rattle.ss_plan.specs.Plan.{source_list};
ghost use Rattle.ss_state.specs.Numbers.{IsOperator};
ghost use Rattle.ss_vault.specs.Readers.{HasRow};
ghost use Rattle.ss_vault.specs.Sound.{Sound};
ghost use Rattle.ss_vault.specs.Told.{durable_of, vault_told};
ghost use Rattle.ss_vertex.specs.Standing.{InstStands};
ghost use Rattle.ss_water.specs.declared.node.Kind.TheVariants.{Source};

use crate::asking::{Asked, accept, asks};
use crate::facts::act_facts;
use crate::fault::{EngineFault, ReadPart};
use crate::kinds::stream_read;
use ss_elem::Element;
use ss_fail::Outcome;
use ss_outside::{Depot, Outputs};
use ss_plan::Plan;
use ss_tail::{Shown, Tail};
use ss_vault::{Read, Vault};
use ss_vertex::Inst;

/// A replica of an operator takes its next element from the tail of the input that it wants, if the element is there.
pub fn act_read(plan: &Plan, inst: &mut Inst, tail: &Tail) -> Result<ReadPart, EngineFault>
    requires stands { InstStands plan.now inst.old }
    requires operator { IsOperator (plan_numbers plan.now) inst.old.v }
    requires tail { IsWantedTail plan.now inst.old tail.now }
    ensures replica { IsReplicaOf plan.now inst.old.v inst.new }
    ensures answer { ReadsTail plan.now inst.old tail.now result inst.new }
{
    act_facts(plan);
    match asks(plan, inst) {
        Asked::Nothing(outcome) => Ok(ReadPart::Did(outcome)),
        Asked::Item { input, n } => match tail.read(n) {
            Shown::Item(x) => match accept(plan, inst, input, n, &x) {
                Ok(outcome) => Ok(ReadPart::Did(outcome)),
                Err(fault) => Err(fault),
            },
            Shown::NotYet { .. } => Ok(ReadPart::Did(Outcome::Wait { input, n })),
            Shown::Below { .. } => Ok(ReadPart::AskVault),
            Shown::Torn { .. } => Ok(ReadPart::AskVault),
        },
    }
}

/// A replica of an operator that may read takes its next element from what is stored, if the element is there.
pub fn act_read_kept<O: Outputs, D: Depot>(
    plan: &Plan,
    inst: &mut Inst,
    vault: &mut Vault<O, D>,
) -> Result<Outcome, EngineFault>
    requires stands { InstStands plan.now inst.old }
    requires operator { IsOperator (plan_numbers plan.now) inst.old.v }
    requires ready { IsReady plan.now inst.old }
    requires sound { Sound plan.now (vault_told O.told D.told vault.old) }
    ensures replica { IsReplicaOf plan.now inst.old.v inst.new }
    ensures sound { Sound plan.now (vault_told O.told D.told vault.new) }
    ensures answer { ReadsVault plan.now inst.old (vault_told O.told D.told vault.old)
        result inst.new (vault_told O.told D.told vault.new) }
    ensures asks { AsksVault true (vault_told O.told D.told vault.old) (is_ok result)
        (vault_told O.told D.told vault.new) }
    ensures outputs { (vault_told O.told D.told vault.new).outputs ≡ (vault_told O.told D.told vault.old).outputs }
{
    act_facts(plan);
    match asks(plan, inst) {
        Asked::Nothing(outcome) => Ok(outcome),
        Asked::Item { input, n } => {
            let u = stream_read(plan, inst.v(), input);
            match vault.read(plan, u, n) {
                Ok(read) => take_read(plan, inst, input, n, read),
                Err(fault) => Err(EngineFault::of_vault(fault)),
            }
        }
    }
}

/// A replica gets what the vault gave as its wanted element.
fn take_read(
    plan: &Plan,
    inst: &mut Inst,
    input: u32,
    n: u64,
    read: Read,
) -> Result<Outcome, EngineFault>
    requires stands { InstStands plan.now inst.old }
    requires wants { Wants plan.now inst.old input n }
    requires element { MayTake plan.now inst.old input n read }
    ensures replica { IsReplicaOf plan.now inst.old.v inst.new }
    ensures answer { TakesRead plan.now inst.old input n read result inst.new }
{
    match read {
        Read::Gone { .. } => {
            inst.crash();
            Ok(Outcome::Gone { input, n })
        }
        Read::NotYet { .. } => Ok(Outcome::Wait { input, n }),
        Read::Item(x) => accept(plan, inst, input, n, &x),
    }
}

/// A replica of a source takes the next element of its list.
pub fn act_read_source<O: Outputs, D: Depot>(
    plan: &Plan,
    inst: &mut Inst,
    vault: &Vault<O, D>,
) -> Result<Outcome, EngineFault>
    requires stands { InstStands plan.now inst.old }
    requires source { (vertex_of plan.now inst.old.v).kind ≡ Source }
    requires sound { Sound plan.now (vault_told O.told D.told vault.now) }
    ensures replica { IsReplicaOf plan.now inst.old.v inst.new }
    ensures answer { ReadsList plan.now inst.old (vault_told O.told D.told vault.now) result inst.new }
{
    act_facts(plan);
    match asks(plan, inst) {
        Asked::Nothing(outcome) => Ok(outcome),
        Asked::Item { input, n } => {
            let v = inst.v();
            let mark = vault.mark(v);
            if n < mark {
                inst.crash();
                return Ok(Outcome::Gone { input, n });
            }
            let x = listed(plan, vault, v, n);
            accept(plan, inst, input, n, &x)
        }
    }
}

/// Element `n` of the list of source `v`, which still has it: the list is asked for none below the vault's mark.
fn listed<O: Outputs, D: Depot>(plan: &Plan, vault: &Vault<O, D>, v: u32, n: u64) -> Element
    requires row { HasRow (vault_told O.told D.told vault.now) v }
    requires source { op_of plan.now.job v ≡ Some op.Source }
    requires kept { (durable_of (vault_told O.told D.told vault.now) v).mark ≤ n }
    requires within { n < length (source_list plan.now v) }
    ensures { slice_get (source_list plan.now v) n ≡ Some result }
{
    plan.source_at(v, n, vault.mark(v))
}
