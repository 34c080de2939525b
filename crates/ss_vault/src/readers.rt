ghost use Rattle.std.specs.Prelude.{◌≡◌, ◌<◌, ◌↔◌, ℕ, IsTrue, length, map};
ghost use Rattle.ss_frames.specs.Plans.{plan_numbers};
ghost use Rattle.ss_plan.specs.Plan.{PlanText};
ghost use Rattle.ss_state.specs.LowWater.{low_at};
ghost use Rattle.ss_vault.specs.Sound.{Sound, snap_at};

use crate::counts::{Counts, counts_of};
use crate::facts::every_snapshot_facts;
use crate::fault::VaultFault;
use crate::vault::Vault;
use ss_outside::{Depot, Outputs};
use ss_water::SnapRow;

impl<O: Outputs, D: Depot> Vault<O, D> {
    ghost use Rattle.ss_vault.specs.Readers.{HasRow, HaveAllEnded, IsOperatorIn, IsOperatorOf};
    ghost use Rattle.ss_vault.specs.Told.{counts_of as counts_of_told, durable_of, numbers_of, vault_told};

    /// The number of the first element of stream `v` that is still stored.
    pub fn base(&self, v: u32) -> u64
        requires { HasRow (vault_told O.told D.told self.now) v }
        ensures { result ≡ (durable_of (vault_told O.told D.told self.now) v).base }
    {
        self.numbers.base(v)
    }

    /// The number of the first element of stream `v` that isn't stored yet.
    pub fn dur(&self, v: u32) -> u64
        requires { HasRow (vault_told O.told D.told self.now) v }
        ensures { result ≡ (durable_of (vault_told O.told D.told self.now) v).dur }
    {
        self.numbers.dur(v)
    }

    /// Below which element the list of source `v` isn't asked any more.
    pub fn mark(&self, v: u32) -> u64
        requires { HasRow (vault_told O.told D.told self.now) v }
        ensures { result ≡ (durable_of (vault_told O.told D.told self.now) v).mark }
    {
        self.numbers.mark(v)
    }

    /// How many lines sink `k` has put.
    pub fn taken(&self, k: u32) -> u64
        requires { HasRow (vault_told O.told D.told self.now) k }
        ensures { result ≡ (durable_of (vault_told O.told D.told self.now) k).taken }
    {
        self.numbers.taken(k)
    }

    /// How many elements were stored since the last whole pass.
    pub fn since(&self) -> u64
        ensures { result ≡ (numbers_of (vault_told O.told D.told self.now)).ledger.since }
    {
        self.numbers.since()
    }

    /// The snapshot from which operator `v` would be recovered now: the greatest that has given only stored elements.
    pub fn low(&self, v: u32) -> u64
        requires { IsOperatorOf (vault_told O.told D.told self.now) v }
        ensures { (plan : PlanText) → IsOperatorIn plan (vault_told O.told D.told self.now) v
            → result ≡ low_at (plan_numbers plan) (numbers_of (vault_told O.told D.told self.now)).ledger v }
    {
        every_snapshot_facts();
        self.numbers.within(v, self.numbers.dur(v))
    }

    /// The stored snapshots of operator `v`, rising.
    pub fn snaps(&self, v: u32) -> &[SnapRow]
        requires { HasRow (vault_told O.told D.told self.now) v }
        ensures numbers { map (λ snap. snap.n) result.now ≡ (durable_of (vault_told O.told D.told self.now) v).snaps }
        ensures snaps { (plan : PlanText) → Sound plan (vault_told O.told D.told self.now)
            → result.now ≡ map (snap_at plan v) (durable_of (vault_told O.told D.told self.now) v).snaps }
    {
        self.numbers.snaps(v)
    }

    /// How many entries the journal has.
    pub fn entries(&self) -> u64
        ensures { result ≡ length (numbers_of (vault_told O.told D.told self.now)).journal }
    {
        self.numbers.entries()
    }

    /// Whether every sink has put all its lines.
    pub fn all_ended(&self) -> bool
        ensures { (plan : PlanText) → Sound plan (vault_told O.told D.told self.now)
            → (IsTrue result ↔ HaveAllEnded plan (vault_told O.told D.told self.now)) }
    {
        self.numbers.all_ended()
    }

    /// The depot's faults, the outputs' faults and the depot's short answers when the vault was started.
    pub fn started(&self) -> (u64, u64, u64)
        ensures faults { result.0 ≡ (vault_told O.told D.told self.now).started.faults }
        ensures output_faults { result.1 ≡ (vault_told O.told D.told self.now).started.output_faults }
        ensures shorts { result.2 ≡ (vault_told O.told D.told self.now).started.shorts }
    {
        (
            self.started.faults,
            self.started.output_faults,
            self.started.shorts,
        )
    }

    /// How often its devices have failed until now.
    pub fn counts(&self) -> Counts
        ensures { result ≡ counts_of_told (vault_told O.told D.told self.now) }
    {
        counts_of(&self.outputs, &self.depot)
    }

    /// What halted the vault, `Store`, `Output` or `Damaged`, if it was.
    pub fn halted(&self) -> Option<VaultFault>
        ensures { result ≡ (vault_told O.told D.told self.now).halted }
    {
        self.halted
    }

    /// The vault's devices.
    pub fn into_parts(self) -> (D, O)
        ensures depot { D.told result.0 ≡ (vault_told O.told D.told self).depot }
        ensures outputs { O.told result.1 ≡ (vault_told O.told D.told self).outputs }
    {
        (self.depot, self.outputs)
    }
}
