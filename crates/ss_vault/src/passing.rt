ghost use Rattle.std.specs.Prelude.{◌≡◌, ◌<◌, ◌≤◌, ◌∷◌, [], None, OnOk, length};
ghost use Rattle.ss_frames.specs.Plans.{plan_numbers};
ghost use Rattle.ss_water.specs.Graph.{is_sink};
ghost use Rattle.ss_vault.specs.Calls.{HasCollected, HasPlace, HasWhatIsNeeded, Passes};
ghost use Rattle.ss_vault.specs.Sound.{Sound};
ghost use Rattle.ss_vault.specs.Steps.{IsSoundBesides, PassesOver, last_streams, streams_among};

use crate::facts::{collection_facts, plan_facts, run_facts};
use crate::fault::VaultFault;
use crate::vault::Vault;
use ss_outside::{Depot, Outputs};
use ss_plan::Plan;
use ss_state::Entry;
use ss_water::Kind;

impl<O: Outputs, D: Depot> Vault<O, D> {
    ghost use Rattle.ss_vault.specs.Told.{vault_told};

    /// Collects every stream and trims its vertex, from the last declared to the first, and counts anew from then on
    /// how many elements are stored. Where the depot fails, what was dropped before stays so.
    pub fn pass(&mut self, plan: &Plan) -> Result<(), VaultFault>
        requires sound { Sound plan.now (vault_told O.told D.told self.old) }
        requires place { HasPlace (vault_told O.told D.told self.old) }
        ensures sound { Sound plan.now (vault_told O.told D.told self.new) }
        ensures answer { Passes plan.now
            (vault_told O.told D.told self.old) result (vault_told O.told D.told self.new) }
        ensures collected { OnOk result
            (HasCollected plan.now (vault_told O.told D.told self.old) (vault_told O.told D.told self.new)) }
        ensures needed { HasWhatIsNeeded plan.now (vault_told O.told D.told self.new) }
        ensures outputs { (vault_told O.told D.told self.new).outputs ≡ (vault_told O.told D.told self.old).outputs }
    {
        run_facts();
        plan_facts(plan);
        collection_facts();
        if self.halted.is_some() {
            return Err(VaultFault::Halted);
        }
        let (halves, stop) = self.make_halves(plan);
        match stop {
            None => {
                self.numbers.count_anew();
                self.numbers.enter(Entry::Pass { halves });
                Ok(())
            }
            Some(fault) => {
                self.numbers.enter(Entry::Pass { halves });
                Err(fault)
            }
        }
    }

    /// Collects and trims as a pass does, without an entry in the journal; answers how many of these halves were made,
    /// and why not all.
    fn make_halves(&mut self, plan: &Plan) -> (u32, Option<VaultFault>)
        requires sound { IsSoundBesides plan.now (vault_told O.told D.told self.old) }
        requires going { self.old.halted ≡ None }
        ensures passes { PassesOver plan.now
            (last_streams (plan_numbers plan.now) (length (plan_numbers plan.now).vertices))
            (vault_told O.told D.told self.old) result.0 result.1 (vault_told O.told D.told self.new) }
        ensures outputs { (vault_told O.told D.told self.new).outputs ≡ (vault_told O.told D.told self.old).outputs }
    {
        plan_facts(plan);
        let count = plan.job().graph().count();
        let mut halves = 0;
        for passed in 0..count {
            let (made, stop) = self.pass_over(plan, count - 1 - passed);
            halves += made;
            if stop.is_some() {
                return (halves, stop);
            }
        }
        (halves, None)
    }

    /// Collects and trims vertex `v`, if it gives a stream, without an entry in the journal.
    fn pass_over(&mut self, plan: &Plan, v: u32) -> (u32, Option<VaultFault>)
        requires sound { IsSoundBesides plan.now (vault_told O.told D.told self.old) }
        requires going { self.old.halted ≡ None }
        requires vertex { v < length (plan_numbers plan.now).vertices }
        ensures passes { PassesOver plan.now (streams_among (plan_numbers plan.now) (v ∷ []))
            (vault_told O.told D.told self.old) result.0 result.1 (vault_told O.told D.told self.new) }
        ensures few { result.0 ≤ 2 }
        ensures outputs { (vault_told O.told D.told self.new).outputs ≡ (vault_told O.told D.told self.old).outputs }
    {
        plan_facts(plan);
        if is_sink(plan.job().graph().node(v).kind) {
            return (0, None);
        }
        match self.collect_half(plan, v) {
            Ok(_) => (),
            Err(fault) => return (0, Some(fault)),
        }
        match self.trim_half(plan, v) {
            Ok(_) => (2, None),
            Err(fault) => (1, Some(fault)),
        }
    }
}

/// Whether a vertex of this kind gives no stream.
fn is_sink(kind: Kind) -> bool
    ensures { result ≡ is_sink kind }
{
    kind == Kind::Sink
}
