ghost use Rattle.std.specs.Prelude.{◌≡◌, ◌<◌, None};
ghost use Rattle.ss_frames.specs.Plans.{plan_numbers};
ghost use Rattle.ss_vault.specs.Answers.{keep_answer};
ghost use Rattle.ss_frames.specs.Snapshot.{IsSnapshot};
ghost use Rattle.ss_vault.specs.Calls.{Keeps};
ghost use Rattle.ss_vault.specs.Sound.{Sound};

use crate::answers::Keep;
use crate::facts::{plan_facts, run_facts, snapshot_facts};
use crate::fault::VaultFault;
use crate::snapshots::keep_frame;
use crate::vault::Vault;
use ss_codec::Frame;
use ss_outside::{Depot, Outputs};
use ss_plan::Plan;
use ss_water::SnapRow;

impl<O: Outputs, D: Depot> Vault<O, D> {
    ghost use Rattle.ss_vault.specs.NumbersHeld.{places_held};
    ghost use Rattle.ss_vault.specs.Told.{vault_told};

    /// Stores a snapshot of an operator, unless it is stored or the operator would be recovered from a later one.
    pub fn keep(&mut self, plan: &Plan, f: &Frame) -> Result<Keep, VaultFault>
        requires sound { Sound plan.now (vault_told O.told D.told self.old) }
        requires snapshot { IsSnapshot plan.now f.now }
        ensures sound { Sound plan.now (vault_told O.told D.told self.new) }
        ensures answer { Keeps plan.now f.now.v f.now.n
            (vault_told O.told D.told self.old) result (vault_told O.told D.told self.new) }
        ensures outputs { (vault_told O.told D.told self.new).outputs ≡ (vault_told O.told D.told self.old).outputs }
    {
        plan_facts(plan);
        snapshot_facts(plan);
        if self.halted.is_some() {
            return Err(VaultFault::Halted);
        }
        if self.numbers.has_snap(f.v, f.n) {
            return Ok(Keep::Known);
        }
        let low = self.numbers.within(f.v, self.numbers.dur(f.v));
        if f.n < low {
            return Ok(Keep::Old { low });
        }
        if self.numbers.reserve_keep(f.v).is_err() {
            return Err(VaultFault::Memory);
        }
        self.add(plan, f)
    }

    /// Stores a snapshot that isn't stored and lies at or above the low-water mark.
    fn add(&mut self, plan: &Plan, f: &Frame) -> Result<Keep, VaultFault>
        requires sound { Sound plan.now (vault_told O.told D.told self.old) }
        requires going { self.old.halted ≡ None }
        requires snapshot { IsSnapshot plan.now f.now }
        requires due { keep_answer (plan_numbers plan.now) self.old.numbers.numbers.ledger f.now.v f.now.n ≡ Keep.Kept }
        requires place { 0 < self.old.numbers.places }
        requires snap_place { 0 < places_held self.old.numbers f.now.v }
        ensures sound { Sound plan.now (vault_told O.told D.told self.new) }
        ensures answer { Keeps plan.now f.now.v f.now.n
            (vault_told O.told D.told self.old) result (vault_told O.told D.told self.new) }
        ensures outputs { (vault_told O.told D.told self.new).outputs ≡ (vault_told O.told D.told self.old).outputs }
    {
        run_facts();
        plan_facts(plan);
        snapshot_facts(plan);
        match keep_frame(&mut self.depot, f, &mut self.buffer) {
            Ok(()) => {
                let snap = SnapRow {
                    n: f.n,
                    out: f.out,
                    pos: f.pos,
                };
                self.numbers.kept(f.v, snap);
                Ok(Keep::Kept)
            }
            Err(fault) => {
                self.halted = fault.halts();
                Err(fault)
            }
        }
    }
}
