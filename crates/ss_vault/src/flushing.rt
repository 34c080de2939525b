ghost use Rattle.std.specs.Prelude.{◌≡◌, ◌+◌, ◌++◌, ◌≤◌, ◌<◌, None, drop, length};
ghost use Rattle.ss_frames.specs.Plans.{plan_numbers};
ghost use Rattle.ss_state.specs.Numbers.{IsStream};
ghost use Rattle.ss_vault.specs.Calls.{Flushes};
ghost use Rattle.ss_vault.specs.Sound.{Sound, elements_from};
ghost use Rattle.ss_vault.specs.Steps.{AreNext, Stores};

use crate::answers::Flush;
use crate::facts::{plan_facts, run_facts};
use crate::fault::VaultFault;
use crate::storing::append_both;
use crate::vault::Vault;
use ss_elem::Element;
use ss_outside::{Depot, Outputs};
use ss_plan::Plan;

impl<O: Outputs, D: Depot> Vault<O, D> {
    ghost use Rattle.ss_vault.specs.Told.{vault_told};

    /// Stores the elements of a batch that aren't yet: at most 64 elements of stream `v`, those of `first` and after them
    /// those of `rest`, of which the very first has number `from`. Nothing is stored where a pass is due first, for more than the job allows would be stored since
    /// the last. Where memory is wanting or the depot fails, those before are stored.
    pub fn flush(
        &mut self,
        plan: &Plan,
        v: u32,
        from: u64,
        first: &[Element],
        rest: &[Element],
    ) -> Result<Flush, VaultFault>
        requires sound { Sound plan.now (vault_told O.told D.told self.old) }
        requires stream { IsStream (plan_numbers plan.now) v }
        requires few { length (first.now ++ rest.now) ≤ 64 }
        requires elements { first.now ++ rest.now
            ≡ elements_from plan.now v from (length (first.now ++ rest.now)) }
        requires within { from + length (first.now ++ rest.now) ≤ (plan_numbers plan.now).max_elements }
        ensures sound { Sound plan.now (vault_told O.told D.told self.new) }
        ensures answer { Flushes plan.now v from (length (first.now ++ rest.now))
            (vault_told O.told D.told self.old) result (vault_told O.told D.told self.new) }
        ensures outputs { (vault_told O.told D.told self.new).outputs ≡ (vault_told O.told D.told self.old).outputs }
    {
        plan_facts(plan);
        if self.halted.is_some() {
            return Err(VaultFault::Halted);
        }
        let count = count_of(first, rest);
        let since = self.numbers.since();
        if since + count > plan.job().collect_every() {
            return Ok(Flush::PassDue { since });
        }
        let dur = self.numbers.dur(v);
        if from > dur {
            return Ok(Flush::Apart { from, dur });
        }
        let known = dur - from;
        if count <= known {
            return Ok(Flush::Flushed { count: 0, dur });
        }
        if self.numbers.reserve_entry().is_err() {
            return Err(VaultFault::Memory);
        }
        let (first, rest) = behind(first, rest, known as usize);
        self.store(plan, v, first, rest)
    }

    /// Stores these elements of stream `v`, which follow those that are stored.
    fn store(
        &mut self,
        plan: &Plan,
        v: u32,
        first: &[Element],
        rest: &[Element],
    ) -> Result<Flush, VaultFault>
        requires sound { Sound plan.now (vault_told O.told D.told self.old) }
        requires going { self.old.halted ≡ None }
        requires place { 0 < self.old.numbers.places }
        requires stream { IsStream (plan_numbers plan.now) v }
        requires some { 0 < length (first.now ++ rest.now) }
        requires few { length (first.now ++ rest.now) ≤ 64 }
        requires since { self.old.numbers.numbers.ledger.since + length (first.now ++ rest.now)
            ≤ (plan_numbers plan.now).collect_every }
        requires elements { AreNext plan.now v (vault_told O.told D.told self.old) (first.now ++ rest.now) }
        ensures sound { Sound plan.now (vault_told O.told D.told self.new) }
        ensures answer { Stores plan.now v (length (first.now ++ rest.now))
            (vault_told O.told D.told self.old) result (vault_told O.told D.told self.new) }
        ensures outputs { (vault_told O.told D.told self.new).outputs ≡ (vault_told O.told D.told self.old).outputs }
    {
        run_facts();
        plan_facts(plan);
        let dur = self.numbers.dur(v);
        let (count, stop) = append_both(&mut self.depot, v, dur, first, rest, &mut self.buffer);
        self.numbers.stored(v, count);
        match stop {
            None => Ok(Flush::Flushed {
                count,
                dur: dur + count,
            }),
            Some(fault) => {
                self.halted = fault.halts();
                Err(fault)
            }
        }
    }
}

/// How many elements lie in two slices.
fn count_of(first: &[Element], rest: &[Element]) -> u64
    requires { length (first.now ++ rest.now) ≤ 64 }
    ensures { result ≡ length (first.now ++ rest.now) }
{
    first.len() as u64 + rest.len() as u64
}

/// The elements of two slices without so many at the front.
fn behind<'a>(
    first: &'a [Element],
    rest: &'a [Element],
    known: usize,
) -> (&'a [Element], &'a [Element])
    requires { known ≤ length (first.now ++ rest.now) }
    ensures { result.0.now ++ result.1.now ≡ drop known (first.now ++ rest.now) }
{
    if known <= first.len() {
        (&first[known..], rest)
    } else {
        (&[], &rest[known - first.len()..])
    }
}
