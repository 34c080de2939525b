ghost use Rattle.std.specs.Prelude.{◌≡◌, ◌≤◌, ℕ, List, is_ok, length, true};
ghost use Rattle.ss_acts.specs.Calls.{FlushesTail};
ghost use Rattle.ss_acts.specs.Leaves.{AsksVault};
ghost use Rattle.ss_acts.specs.Parts.{IsTailOf};
ghost use Rattle.ss_acts.specs.Told.{dur_told, flush_outcome, tail_flushed};
ghost use Rattle.ss_elem.specs.declared.element.Element.{Element};
ghost use Rattle.ss_frames.specs.Plans.{plan_numbers};
ghost use Rattle.ss_state.specs.Numbers.{IsStream};
ghost use Rattle.ss_tail.specs.Held.{Stands};
ghost use Rattle.ss_vault.specs.Sound.{Sound};
ghost use Rattle.ss_vault.specs.Told.{vault_told};

use crate::facts::act_facts;
use crate::fault::EngineFault;
use ss_fail::Outcome;
use ss_outside::{Depot, Outputs};
use ss_plan::Plan;
use ss_tail::Tail;
use ss_vault::{Flush, Vault};

/// At most `count` elements of the tail of vertex `v` are stored, those that aren't known to be first.
pub fn act_flush<O: Outputs, D: Depot>(
    plan: &Plan,
    v: u32,
    count: u32,
    tail: &mut Tail,
    vault: &mut Vault<O, D>,
) -> Result<Outcome, EngineFault>
    requires stream { IsStream (plan_numbers plan.now) v }
    requires few { count ≤ 64 }
    requires tail { IsTailOf plan.now v tail.old }
    requires sound { Sound plan.now (vault_told O.told D.told vault.old) }
    ensures tail { IsTailOf plan.now v tail.new }
    ensures sound { Sound plan.now (vault_told O.told D.told vault.new) }
    ensures answer { FlushesTail plan.now v count tail.old (vault_told O.told D.told vault.old)
        result tail.new (vault_told O.told D.told vault.new) }
    ensures asks { AsksVault true (vault_told O.told D.told vault.old) (is_ok result)
        (vault_told O.told D.told vault.new) }
    ensures outputs { (vault_told O.told D.told vault.new).outputs ≡ (vault_told O.told D.told vault.old).outputs }
{
    act_facts(plan);
    let base = vault.base(v);
    let batch = tail.batch(count);
    match vault.flush(plan, v, batch.from, batch.first, batch.rest) {
        Ok(answer) => Ok(tell(tail, answer, base)),
        Err(fault) => Err(EngineFault::of_vault(fault)),
    }
}

/// Tells a tail what came of its batch, where the stored elements of its stream begin at `base`.
fn tell(tail: &mut Tail, answer: Flush, base: u64) -> Outcome
    ensures outcome { result ≡ flush_outcome answer }
    ensures told { tail.new ≡ tail_flushed tail.old base answer }
    ensures standing { (list : List Element) (most : ℕ) → Stands list most tail.old →
        dur_told answer ≤ length list → dur_told answer ≤ most → Stands list most tail.new }
{
    match answer {
        Flush::PassDue { since } => Outcome::PassDue { since },
        Flush::Apart { from, dur } => {
            tail.restart(dur);
            Outcome::Apart { from, dur }
        }
        Flush::Flushed { count, dur } => {
            tail.note(dur);
            tail.trim(base);
            Outcome::Flushed { count }
        }
    }
}
