ghost use Rattle.std.specs.Prelude.{◌≡◌, ◌≤◌, ◌<◌, None, IfErr, IfOk};
ghost use Rattle.ss_frames.specs.Plans.{plan_numbers};
ghost use Rattle.ss_frames.specs.Snapshot.{IsSnapshot};
ghost use Rattle.ss_state.specs.Numbers.{IsOperator, IsStream};
ghost use Rattle.ss_vault.specs.Calls.{Fetches, Reads};
ghost use Rattle.ss_vault.specs.Devices.{IsOfNoShort};
ghost use Rattle.ss_vault.specs.Sound.{Sound};
ghost use Rattle.ss_vault.specs.Steps.{LooksUp};

use crate::answers::Read;
use crate::facts::{plan_facts, snapshot_facts};
use crate::fault::VaultFault;
use crate::snapshots::load_frame;
use crate::storing::fetch_element;
use crate::vault::Vault;
use ss_codec::Frame;
use ss_elem::Element;
use ss_outside::{Depot, Outputs};
use ss_plan::Plan;

impl<O: Outputs, D: Depot> Vault<O, D> {
    ghost use Rattle.ss_vault.specs.Told.{durable_of, vault_told};

    /// Element `n` of stream `v`, if it is stored.
    pub fn read(&mut self, plan: &Plan, v: u32, n: u64) -> Result<Read, VaultFault>
        requires sound { Sound plan.now (vault_told O.told D.told self.old) }
        requires stream { IsStream (plan_numbers plan.now) v }
        ensures sound { Sound plan.now (vault_told O.told D.told self.new) }
        ensures answer { Reads plan.now v n
            (vault_told O.told D.told self.old) result (vault_told O.told D.told self.new) }
        ensures whole { IfErr result (IsOfNoShort (D.told self.old.depot) (D.told self.new.depot)) }
        ensures outputs { (vault_told O.told D.told self.new).outputs ≡ (vault_told O.told D.told self.old).outputs }
    {
        if self.halted.is_some() {
            return Err(VaultFault::Halted);
        }
        let base = self.numbers.base(v);
        if n < base {
            return Ok(Read::Gone { base });
        }
        let dur = self.numbers.dur(v);
        if n >= dur {
            return Ok(Read::NotYet { dur });
        }
        match self.stored(plan, v, n) {
            Ok(x) => Ok(Read::Item(x)),
            Err(fault) => Err(fault),
        }
    }

    /// Element `n` of stream `v`, which is stored.
    pub(crate) fn stored(&mut self, plan: &Plan, v: u32, n: u64) -> Result<Element, VaultFault>
        requires sound { Sound plan.now (vault_told O.told D.told self.old) }
        requires going { self.old.halted ≡ None }
        requires stream { IsStream (plan_numbers plan.now) v }
        requires base { (durable_of (vault_told O.told D.told self.old) v).base ≤ n }
        requires dur { n < (durable_of (vault_told O.told D.told self.old) v).dur }
        ensures sound { Sound plan.now (vault_told O.told D.told self.new) }
        ensures answer { LooksUp plan.now v n
            (vault_told O.told D.told self.old) result (vault_told O.told D.told self.new) }
        ensures numbers { self.new.numbers ≡ self.old.numbers }
        ensures whole { IfErr result (IsOfNoShort (D.told self.old.depot) (D.told self.new.depot)) }
        ensures outputs { (vault_told O.told D.told self.new).outputs ≡ (vault_told O.told D.told self.old).outputs }
    {
        plan_facts(plan);
        match fetch_element(&mut self.depot, v, n, &mut self.buffer) {
            Ok(x) => Ok(x),
            Err(fault) => {
                self.halted = fault.halts();
                Err(fault)
            }
        }
    }

    /// The greatest stored snapshot of operator `v` that has given at most `limit` elements.
    pub fn fetch(&mut self, plan: &Plan, v: u32, limit: u64) -> Result<Frame, VaultFault>
        requires sound { Sound plan.now (vault_told O.told D.told self.old) }
        requires operator { IsOperator (plan_numbers plan.now) v }
        requires limit { (durable_of (vault_told O.told D.told self.old) v).dur ≤ limit }
        ensures sound { Sound plan.now (vault_told O.told D.told self.new) }
        ensures answer { Fetches plan.now v limit
            (vault_told O.told D.told self.old) result (vault_told O.told D.told self.new) }
        ensures snapshot { IfOk result (IsSnapshot plan.now) }
        ensures outputs { (vault_told O.told D.told self.new).outputs ≡ (vault_told O.told D.told self.old).outputs }
    {
        if self.halted.is_some() {
            return Err(VaultFault::Halted);
        }
        plan_facts(plan);
        snapshot_facts(plan);
        let n = self.numbers.within(v, limit);
        let alloc = *self.buffer.allocator();
        match load_frame(alloc, &mut self.depot, v, n, &mut self.buffer) {
            Ok(f) => Ok(f),
            Err(fault) => {
                self.halted = fault.halts();
                Err(fault)
            }
        }
    }
}
