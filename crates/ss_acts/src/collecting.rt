ghost use Rattle.std.specs.Prelude.{◌≡◌, is_ok, true};
ghost use Rattle.ss_acts.specs.Calls.{CollectsStream, PassesAll, TrimsVertex};
ghost use Rattle.ss_acts.specs.Leaves.{AsksVault, IsReadied};
ghost use Rattle.ss_acts.specs.Parts.{vertex_of};
ghost use Rattle.ss_acts.specs.Told.{trim_outcome};
ghost use Rattle.ss_frames.specs.Plans.{plan_numbers};
ghost use Rattle.ss_plan.specs.Plan.{PlanText};
ghost use Rattle.ss_state.specs.Numbers.{IsStream, is_inner};
ghost use Rattle.ss_vault.specs.Sound.{Sound};
ghost use Rattle.ss_vault.specs.Told.{vault_told};

use crate::fault::EngineFault;
use crate::kinds::is_operator;
use ss_fail::Outcome;
use ss_outside::{Depot, Outputs};
use ss_plan::Plan;
use ss_vault::{Vault, VaultFault};

/// The stored elements of vertex `v` that no reader needs are dropped. Memory is wanting only before anything is done.
pub fn act_collect<O: Outputs, D: Depot>(
    plan: &Plan,
    vault: &mut Vault<O, D>,
    v: u32,
) -> Result<Outcome, EngineFault>
    requires stream { IsStream (plan_numbers plan.now) v }
    requires sound { Sound plan.now (vault_told O.told D.told vault.old) }
    ensures sound { Sound plan.now (vault_told O.told D.told vault.new) }
    ensures answer { CollectsStream plan.now v (vault_told O.told D.told vault.old)
        result (vault_told O.told D.told vault.new) }
    ensures asks { AsksVault true (vault_told O.told D.told vault.old) (is_ok result)
        (vault_told O.told D.told vault.new) }
    ensures outputs { (vault_told O.told D.told vault.new).outputs ≡ (vault_told O.told D.told vault.old).outputs }
{
    match get_ready(vault) {
        Ok(()) => (),
        Err(fault) => return Err(fault),
    }
    match vault.collect(plan, v) {
        Ok(n) => Ok(Outcome::Base { n }),
        Err(fault) => Err(EngineFault::of_vault(fault)),
    }
}

/// What is stored for vertex `v` itself and needed no more is given up: of an operator the snapshots below the one from
/// which it would be recovered, of a source the elements of its list that are stored. Memory is wanting only before
/// anything is done.
pub fn act_trim<O: Outputs, D: Depot>(
    plan: &Plan,
    vault: &mut Vault<O, D>,
    v: u32,
) -> Result<Outcome, EngineFault>
    requires stream { IsStream (plan_numbers plan.now) v }
    requires sound { Sound plan.now (vault_told O.told D.told vault.old) }
    ensures sound { Sound plan.now (vault_told O.told D.told vault.new) }
    ensures answer { TrimsVertex plan.now v (vault_told O.told D.told vault.old)
        result (vault_told O.told D.told vault.new) }
    ensures asks { AsksVault true (vault_told O.told D.told vault.old) (is_ok result)
        (vault_told O.told D.told vault.new) }
    ensures outputs { (vault_told O.told D.told vault.new).outputs ≡ (vault_told O.told D.told vault.old).outputs }
{
    match get_ready(vault) {
        Ok(()) => (),
        Err(fault) => return Err(fault),
    }
    match vault.trim(plan, v) {
        Ok(n) => Ok(trimmed(plan, v, n)),
        Err(fault) => Err(EngineFault::of_vault(fault)),
    }
}

/// Every stream is collected and its vertex trimmed, from the last declared to the first, and what is stored is counted
/// anew. Memory is wanting only before anything is done.
pub fn act_pass<O: Outputs, D: Depot>(
    plan: &Plan,
    vault: &mut Vault<O, D>,
) -> Result<Outcome, EngineFault>
    requires sound { Sound plan.now (vault_told O.told D.told vault.old) }
    ensures sound { Sound plan.now (vault_told O.told D.told vault.new) }
    ensures answer { PassesAll plan.now (vault_told O.told D.told vault.old)
        result (vault_told O.told D.told vault.new) }
    ensures asks { AsksVault true (vault_told O.told D.told vault.old) (is_ok result)
        (vault_told O.told D.told vault.new) }
    ensures outputs { (vault_told O.told D.told vault.new).outputs ≡ (vault_told O.told D.told vault.old).outputs }
{
    match get_ready(vault) {
        Ok(()) => (),
        Err(fault) => return Err(fault),
    }
    match vault.pass(plan) {
        Ok(()) => Ok(Outcome::Passed),
        Err(fault) => Err(EngineFault::of_vault(fault)),
    }
}

/// Reserves the place in the journal that an act of collection takes. A vault that was halted is left as it is.
fn get_ready<O: Outputs, D: Depot>(vault: &mut Vault<O, D>) -> Result<(), EngineFault>
    ensures ready { IsReadied (vault_told O.told D.told vault.old) result (vault_told O.told D.told vault.new) }
    ensures sound { (plan : PlanText) → Sound plan (vault_told O.told D.told vault.old)
        → Sound plan (vault_told O.told D.told vault.new) }
{
    if vault.halted().is_some() {
        return Err(EngineFault::Vault(VaultFault::Halted));
    }
    match vault.ready() {
        Ok(()) => Ok(()),
        Err(_) => Err(EngineFault::Memory),
    }
}

/// What came of a trim of vertex `v`, which answered `n`.
fn trimmed(plan: &Plan, v: u32, n: u64) -> Outcome
    requires { IsStream (plan_numbers plan.now) v }
    ensures { result ≡ trim_outcome (is_inner (vertex_of plan.now v).kind) n }
{
    if is_operator(plan, v) {
        Outcome::Low { n }
    } else {
        Outcome::Mark { n }
    }
}
