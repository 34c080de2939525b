ghost use Rattle.std.specs.Prelude.{◌≡◌, None, Ok, OnOk, false};
ghost use Rattle.ss_frames.specs.Plans.{plan_numbers};
ghost use Rattle.ss_plan.specs.Plan.{PlanText};
ghost use Rattle.ss_state.specs.LowWater.{need};
ghost use Rattle.ss_state.specs.Numbers.{IsOperator, IsStream, is_inner, vertex};
ghost use Rattle.ss_state.specs.declared.entry.Entry.TheVariants as entry;
ghost use Rattle.ss_vault.specs.Answers.{trim_answer};
ghost use Rattle.ss_vault.specs.Calls.{Collects, HasPlace, HasWhatIsNeeded, KeepsAllButPlaces, Trims};
ghost use Rattle.ss_vault.specs.Sound.{Sound};
ghost use Rattle.ss_vault.specs.Steps.{IsSoundBesides, MakesHalf};

use crate::Memory;
use crate::facts::{collection_facts, plan_facts, run_facts, snapshot_facts};
use crate::fault::VaultFault;
use crate::vault::Vault;
use ss_outside::{Depot, Outputs};
use ss_plan::Plan;
use ss_state::Entry;
use ss_water::Kind;

impl<O: Outputs, D: Depot> Vault<O, D> {
    ghost use Rattle.ss_vault.specs.Told.{numbers_of, vault_told};

    /// Reserves a place in the journal, which a collect, a trim and a pass each need.
    pub fn ready(&mut self) -> Result<(), Memory>
        ensures place { OnOk result (HasPlace (vault_told O.told D.told self.new)) }
        ensures same { KeepsAllButPlaces (vault_told O.told D.told self.old) (vault_told O.told D.told self.new) }
        ensures sound { (plan : PlanText) → Sound plan (vault_told O.told D.told self.old)
            → Sound plan (vault_told O.told D.told self.new) }
    {
        self.numbers.reserve_entry()
    }

    /// Drops the stored elements of stream `v` that no reader needs; answers the number of the first that one needs.
    /// Where fewer are stored than aren't needed, those up to that number count as stored.
    pub fn collect(&mut self, plan: &Plan, v: u32) -> Result<u64, VaultFault>
        requires sound { Sound plan.now (vault_told O.told D.told self.old) }
        requires stream { IsStream (plan_numbers plan.now) v }
        requires place { HasPlace (vault_told O.told D.told self.old) }
        ensures sound { Sound plan.now (vault_told O.told D.told self.new) }
        ensures answer { Collects plan.now v
            (vault_told O.told D.told self.old) result (vault_told O.told D.told self.new) }
        ensures needed { HasWhatIsNeeded plan.now (vault_told O.told D.told self.new) }
        ensures outputs { (vault_told O.told D.told self.new).outputs ≡ (vault_told O.told D.told self.old).outputs }
    {
        plan_facts(plan);
        collection_facts();
        if self.halted.is_some() {
            return Err(VaultFault::Halted);
        }
        match self.collect_half(plan, v) {
            Ok(base) => {
                self.numbers.enter(Entry::Collected { v });
                Ok(base)
            }
            Err(fault) => Err(fault),
        }
    }

    /// Drops the snapshots of operator `v` below the one from which it would be recovered, and answers the number of
    /// that; or raises the mark of source `v` to the first element that isn't stored, and answers it.
    pub fn trim(&mut self, plan: &Plan, v: u32) -> Result<u64, VaultFault>
        requires sound { Sound plan.now (vault_told O.told D.told self.old) }
        requires stream { IsStream (plan_numbers plan.now) v }
        requires place { HasPlace (vault_told O.told D.told self.old) }
        ensures sound { Sound plan.now (vault_told O.told D.told self.new) }
        ensures answer { Trims plan.now v
            (vault_told O.told D.told self.old) result (vault_told O.told D.told self.new) }
        ensures needed { HasWhatIsNeeded plan.now (vault_told O.told D.told self.new) }
        ensures outputs { (vault_told O.told D.told self.new).outputs ≡ (vault_told O.told D.told self.old).outputs }
    {
        plan_facts(plan);
        collection_facts();
        if self.halted.is_some() {
            return Err(VaultFault::Halted);
        }
        match self.trim_half(plan, v) {
            Ok(n) => {
                self.numbers.enter(Entry::Trimmed { v });
                Ok(n)
            }
            Err(fault) => Err(fault),
        }
    }

    /// Collects stream `v`, without an entry in the journal.
    pub(crate) fn collect_half(&mut self, plan: &Plan, v: u32) -> Result<u64, VaultFault>
        requires sound { IsSoundBesides plan.now (vault_told O.told D.told self.old) }
        requires going { self.old.halted ≡ None }
        requires stream { IsStream (plan_numbers plan.now) v }
        ensures half { MakesHalf plan.now (entry.Collected v)
            (need (plan_numbers plan.now) (numbers_of (vault_told O.told D.told self.old)).ledger v)
            (vault_told O.told D.told self.old) result (vault_told O.told D.told self.new) }
        ensures outputs { (vault_told O.told D.told self.new).outputs ≡ (vault_told O.told D.told self.old).outputs }
    {
        run_facts();
        plan_facts(plan);
        snapshot_facts(plan);
        collection_facts();
        let base = self.numbers.need(plan.job().graph(), v);
        match self.depot.cut(v, base) {
            Ok(()) => {
                self.numbers.collected(v, base);
                Ok(base)
            }
            Err(_) => {
                let fault = VaultFault::Store {
                    count: self.depot.faults(),
                };
                self.halted = fault.halts();
                Err(fault)
            }
        }
    }

    /// Trims vertex `v`, without an entry in the journal.
    pub(crate) fn trim_half(&mut self, plan: &Plan, v: u32) -> Result<u64, VaultFault>
        requires sound { IsSoundBesides plan.now (vault_told O.told D.told self.old) }
        requires going { self.old.halted ≡ None }
        requires stream { IsStream (plan_numbers plan.now) v }
        ensures half { MakesHalf plan.now (entry.Trimmed v)
            (trim_answer (plan_numbers plan.now) (numbers_of (vault_told O.told D.told self.old)).ledger v)
            (vault_told O.told D.told self.old) result (vault_told O.told D.told self.new) }
        ensures outputs { (vault_told O.told D.told self.new).outputs ≡ (vault_told O.told D.told self.old).outputs }
    {
        plan_facts(plan);
        match plan.job().graph().node(v).kind {
            Kind::Inner => self.drop_snapshots(plan, v),
            Kind::Source => Ok(self.raise_mark(plan, v)),
            Kind::Sink => unreachable!(),
        }
    }

    /// Drops the snapshots of operator `v` below the one from which it would be recovered.
    fn drop_snapshots(&mut self, plan: &Plan, v: u32) -> Result<u64, VaultFault>
        requires sound { IsSoundBesides plan.now (vault_told O.told D.told self.old) }
        requires going { self.old.halted ≡ None }
        requires operator { IsOperator (plan_numbers plan.now) v }
        ensures half { MakesHalf plan.now (entry.Trimmed v)
            (trim_answer (plan_numbers plan.now) (numbers_of (vault_told O.told D.told self.old)).ledger v)
            (vault_told O.told D.told self.old) result (vault_told O.told D.told self.new) }
        ensures outputs { (vault_told O.told D.told self.new).outputs ≡ (vault_told O.told D.told self.old).outputs }
    {
        run_facts();
        plan_facts(plan);
        snapshot_facts(plan);
        let low = self.numbers.within(v, self.numbers.dur(v));
        match self.depot.drop_below(v, low) {
            Ok(()) => {
                self.numbers.trimmed(v, low);
                Ok(low)
            }
            Err(_) => {
                let fault = VaultFault::Store {
                    count: self.depot.faults(),
                };
                self.halted = fault.halts();
                Err(fault)
            }
        }
    }

    /// Raises the mark of source `v` to the first element that isn't stored.
    fn raise_mark(&mut self, plan: &Plan, v: u32) -> u64
        requires sound { IsSoundBesides plan.now (vault_told O.told D.told self.old) }
        requires going { self.old.halted ≡ None }
        requires stream { IsStream (plan_numbers plan.now) v }
        requires source { is_inner (vertex (plan_numbers plan.now) v).kind ≡ false }
        ensures half { MakesHalf plan.now (entry.Trimmed v)
            (trim_answer (plan_numbers plan.now) (numbers_of (vault_told O.told D.told self.old)).ledger v)
            (vault_told O.told D.told self.old) (Ok result) (vault_told O.told D.told self.new) }
        ensures outputs { (vault_told O.told D.told self.new).outputs ≡ (vault_told O.told D.told self.old).outputs }
    {
        run_facts();
        plan_facts(plan);
        self.numbers.marked(v);
        self.numbers.dur(v)
    }
}
