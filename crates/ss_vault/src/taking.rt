ghost use Rattle.std.specs.Prelude.{◌≡◌, ◌<◌, None};
ghost use Rattle.ss_elem.specs.Line.{line_of};
ghost use Rattle.ss_frames.specs.Plans.{plan_numbers};
ghost use Rattle.ss_outside.specs.Told.{Puts};
ghost use Rattle.ss_state.specs.Numbers.{IsSink, input, vertex};
ghost use Rattle.ss_vault.specs.Calls.{Delivers, Takes};
ghost use Rattle.ss_vault.specs.Sound.{Sound};
ghost use Rattle.ss_vault.specs.Steps.{IsNextOf, IsOutputFault, is_end};

use crate::answers::Take;
use crate::facts::{plan_facts, run_facts};
use crate::fault::VaultFault;
use crate::vault::Vault;
use ss_elem::{Element, LineBuf, line};
use ss_outside::{Depot, Outputs, PutFault};
use ss_plan::Plan;

impl<O: Outputs, D: Depot> Vault<O, D> {
    ghost use Rattle.ss_vault.specs.Told.{vault_told};

    /// Puts the next line of sink `k`, if the element is stored.
    pub fn take(&mut self, plan: &Plan, k: u32) -> Result<Take, VaultFault>
        requires sound { Sound plan.now (vault_told O.told D.told self.old) }
        requires sink { IsSink (plan_numbers plan.now) k }
        ensures sound { Sound plan.now (vault_told O.told D.told self.new) }
        ensures answer { Takes plan.now k
            (vault_told O.told D.told self.old) result (vault_told O.told D.told self.new) }
        ensures outputs { Delivers plan.now k
            (vault_told O.told D.told self.old) result (vault_told O.told D.told self.new) }
    {
        plan_facts(plan);
        if self.halted.is_some() {
            return Err(VaultFault::Halted);
        }
        if self.numbers.ended(k) {
            return Ok(Take::Ended);
        }
        let u = stream_put(plan, k);
        let n = self.numbers.taken(k);
        let dur = self.numbers.dur(u);
        if n == dur {
            return Ok(Take::NotYet { dur });
        }
        if self.numbers.reserve_entry().is_err() {
            return Err(VaultFault::Memory);
        }
        match self.stored(plan, u, n) {
            Ok(x) => self.deliver(plan, k, &x),
            Err(fault) => Err(fault),
        }
    }

    /// Puts the next line of sink `k`, that of this element.
    fn deliver(&mut self, plan: &Plan, k: u32, x: &Element) -> Result<Take, VaultFault>
        requires sound { Sound plan.now (vault_told O.told D.told self.old) }
        requires going { self.old.halted ≡ None }
        requires place { 0 < self.old.numbers.places }
        requires sink { IsSink (plan_numbers plan.now) k }
        requires next { IsNextOf plan.now k (vault_told O.told D.told self.old) x.now }
        ensures sound { Sound plan.now (vault_told O.told D.told self.new) }
        ensures answer { Takes plan.now k
            (vault_told O.told D.told self.old) result (vault_told O.told D.told self.new) }
        ensures outputs { Delivers plan.now k
            (vault_told O.told D.told self.old) result (vault_told O.told D.told self.new) }
    {
        run_facts();
        plan_facts(plan);
        let n = self.numbers.taken(k);
        let file = plan.job().file(k);
        match put_line(&mut self.outputs, file, x) {
            Ok(()) => {
                self.numbers.took(k, is_end(x));
                Ok(Take::Took { n })
            }
            Err(fault) => {
                let fault = output_fault(&self.outputs, fault);
                self.halted = fault.halts();
                Err(fault)
            }
        }
    }
}

/// The stream that sink `k` puts.
fn stream_put(plan: &Plan, k: u32) -> u32
    requires { IsSink (plan_numbers plan.now) k }
    ensures { result ≡ input (vertex (plan_numbers plan.now) k) 0 }
{
    plan_facts(plan);
    plan.job().graph().node(k).inputs[0]
}

/// Whether the element ends its stream.
fn is_end(x: &Element) -> bool
    ensures { result ≡ is_end x.now }
{
    matches!(x, Element::End)
}

/// Puts an element's line to a file.
fn put_line<O: Outputs>(outputs: &mut O, file: &str, x: &Element) -> Result<(), PutFault>
    ensures { Puts (O.told outputs.old) (O.told outputs.new) file.now (line_of x.now) result }
{
    let mut buffer = LineBuf::new();
    line(x, &mut buffer);
    outputs.put(file, buffer.as_slice())
}

/// A failed put as a fault of the vault.
fn output_fault<O: Outputs>(outputs: &O, fault: PutFault) -> VaultFault
    ensures { IsOutputFault (O.told outputs.now) fault result }
{
    match fault {
        PutFault::Failed => VaultFault::Output {
            count: outputs.faults(),
        },
        PutFault::Memory => VaultFault::Memory,
    }
}
