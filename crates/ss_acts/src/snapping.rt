ghost use Rattle.std.specs.Prelude.{◌≡◌, is_ok};
ghost use Rattle.ss_acts.specs.Calls.{Snaps};
ghost use Rattle.ss_acts.specs.Leaves.{AsksVault};
ghost use Rattle.ss_acts.specs.Readings.{must_keep};
ghost use Rattle.ss_acts.specs.Told.{keep_outcome};
ghost use Rattle.ss_vault.specs.Sound.{Sound};
ghost use Rattle.ss_vault.specs.Told.{vault_told};
ghost use Rattle.ss_vertex.specs.Standing.{InstStands};

use crate::facts::act_facts;
use crate::fault::EngineFault;
use crate::kinds::is_operator;
use ss_fail::Outcome;
use ss_outside::{Depot, Outputs};
use ss_plan::Plan;
use ss_vault::{Keep, Vault};
use ss_vertex::{Inst, SnapFault};
use std::alloc::Global;

/// A replica of an operator gives its snapshot to the vault.
pub fn act_snap<O: Outputs, D: Depot>(
    alloc: Global,
    plan: &Plan,
    inst: &Inst,
    vault: &mut Vault<O, D>,
) -> Result<Outcome, EngineFault>
    requires stands { InstStands plan.now inst.now }
    requires sound { Sound plan.now (vault_told O.told D.told vault.old) }
    ensures sound { Sound plan.now (vault_told O.told D.told vault.new) }
    ensures answer { Snaps plan.now inst.now (vault_told O.told D.told vault.old)
        result (vault_told O.told D.told vault.new) }
    ensures asks { AsksVault (must_keep plan.now inst.now) (vault_told O.told D.told vault.old) (is_ok result)
        (vault_told O.told D.told vault.new) }
    ensures outputs { (vault_told O.told D.told vault.new).outputs ≡ (vault_told O.told D.told vault.old).outputs }
{
    act_facts(plan);
    if !is_operator(plan, inst.v()) {
        return Ok(Outcome::Idle);
    }
    if !inst.is_up() {
        return Ok(Outcome::Down);
    }
    match inst.snapshot(alloc, plan) {
        Ok(frame) => match vault.keep(plan, &frame) {
            Ok(kept) => Ok(told(frame.n, kept)),
            Err(fault) => Err(EngineFault::of_vault(fault)),
        },
        Err(fault) => match fault {
            SnapFault::Pending { left } => Ok(Outcome::Pending { left }),
            SnapFault::Memory => Err(EngineFault::Memory),
        },
    }
}

/// What came of snapshot `n`.
fn told(n: u64, kept: Keep) -> Outcome
    ensures { result ≡ keep_outcome n kept }
{
    match kept {
        Keep::Known => Outcome::Known { n },
        Keep::Old { low } => Outcome::Old { n: low },
        Keep::Kept => Outcome::Kept { n },
    }
}
