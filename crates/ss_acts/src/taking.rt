ghost use Rattle.std.specs.Prelude.{◌≡◌, is_ok, true, Some};
ghost use Rattle.ss_acts.specs.Calls.{TakesLine};
ghost use Rattle.ss_acts.specs.Leaves.{AsksVault, PutsBy};
ghost use Rattle.ss_acts.specs.Told.{take_outcome};
ghost use Rattle.ss_frames.specs.Plans.{plan_numbers};
ghost use Rattle.ss_state.specs.Numbers.{IsSink};
ghost use Rattle.ss_vault.specs.Sound.{Sound};
ghost use Rattle.ss_vault.specs.Told.{vault_told};

use crate::fault::EngineFault;
use ss_fail::Outcome;
use ss_outside::{Depot, Outputs};
use ss_plan::Plan;
use ss_vault::{Take, Vault};

/// Sink `k` puts the line of the next stored element of its stream.
pub fn act_take<O: Outputs, D: Depot>(
    plan: &Plan,
    vault: &mut Vault<O, D>,
    k: u32,
) -> Result<Outcome, EngineFault>
    requires sink { IsSink (plan_numbers plan.now) k }
    requires sound { Sound plan.now (vault_told O.told D.told vault.old) }
    ensures sound { Sound plan.now (vault_told O.told D.told vault.new) }
    ensures answer { TakesLine plan.now k (vault_told O.told D.told vault.old)
        result (vault_told O.told D.told vault.new) }
    ensures asks { AsksVault true (vault_told O.told D.told vault.old) (is_ok result)
        (vault_told O.told D.told vault.new) }
    ensures outputs { PutsBy plan.now (Some k) (vault_told O.told D.told vault.old)
        result (vault_told O.told D.told vault.new) }
{
    match vault.take(plan, k) {
        Ok(take) => Ok(told(take)),
        Err(fault) => Err(EngineFault::of_vault(fault)),
    }
}

/// What came of a take.
fn told(take: Take) -> Outcome
    ensures { result ≡ take_outcome take }
{
    match take {
        Take::Ended => Outcome::Ended,
        Take::NotYet { dur } => Outcome::WaitDur { dur },
        Take::Took { n } => Outcome::Took { n },
    }
}
