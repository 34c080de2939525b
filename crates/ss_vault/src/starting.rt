ghost use Rattle.std.specs.Prelude.{◌≡◌, ◌+◌, ◌<◌, IfErr, IfOk, length};
ghost use Rattle.ss_frames.specs.First.{first_frame};
ghost use Rattle.ss_frames.specs.Frames.{op_number};
ghost use Rattle.ss_frames.specs.Plans.{plan_numbers};
ghost use Rattle.ss_outside.specs.Depot.{no_contents};
ghost use Rattle.ss_vault.specs.Calls.{Begins, HaveNoBytes, RefusesStart};
ghost use Rattle.ss_vault.specs.Devices.{HoldsFirstBelow, KeepsFirst};
ghost use Rattle.ss_vault.specs.Sound.{Sound};

use crate::Memory;
use crate::counts::counts_of;
use crate::facts::{plan_facts, run_facts, snapshot_facts};
use crate::fault::{Refused, VaultFault};
use crate::numbers::Numbers;
use crate::snapshots::keep_frame;
use crate::vault::Vault;
use ss_codec::{Frame, Image};
use ss_expr::Spec;
use ss_outside::{Depot, Outputs};
use ss_plan::Plan;
use std::alloc::Global;

impl<O: Outputs, D: Depot> Vault<O, D> {
    ghost use Rattle.ss_vault.specs.Told.{vault_told};

    /// The vault of a plan that begins, over a depot that holds nothing and outputs with no bytes: it stores the first
    /// snapshot of each operator.
    pub fn start(
        alloc: Global,
        plan: &Plan,
        depot: D,
        outputs: O,
    ) -> Result<Vault<O, D>, Refused<O, D>>
        requires depot { (D.told depot).contents ≡ no_contents }
        requires outputs { HaveNoBytes (O.told outputs) }
        ensures sound { IfOk result (λ vault. Sound plan.now (vault_told O.told D.told vault)) }
        ensures begins { IfOk result (λ vault.
            Begins plan.now (O.told outputs) (D.told depot) (vault_told O.told D.told vault)) }
        ensures refused { IfErr result (λ refused.
            RefusesStart plan.now refused.fault (D.told depot) (D.told refused.depot)) }
        ensures outputs { IfErr result (λ refused. O.told refused.outputs ≡ O.told outputs) }
    {
        run_facts();
        plan_facts(plan);
        snapshot_facts(plan);
        let started = counts_of(&outputs, &depot);
        let mut depot = depot;
        let mut buffer = Vec::new(alloc);
        let numbers = match Numbers::new(alloc, plan.job().graph()) {
            Ok(numbers) => numbers,
            Err(_) => {
                return Err(Refused {
                    fault: VaultFault::Memory,
                    depot,
                    outputs,
                });
            }
        };
        match keep_first_frames(alloc, plan, &mut depot, &mut buffer) {
            Ok(()) => Ok(Vault {
                numbers,
                halted: None,
                started,
                depot,
                outputs,
                buffer,
            }),
            Err(fault) => Err(Refused {
                fault,
                depot,
                outputs,
            }),
        }
    }
}

/// Stores the first snapshot of each operator of a plan.
fn keep_first_frames<D: Depot>(
    alloc: Global,
    plan: &Plan,
    depot: &mut D,
    buffer: &mut Vec<u8>,
) -> Result<(), VaultFault>
    requires { (D.told depot.old).contents ≡ no_contents }
    ensures { KeepsFirst plan.now (length (plan_numbers plan.now).vertices)
        (D.told depot.old) (D.told depot.new) result }
{
    plan_facts(plan);
    for v in 0..plan.job().graph().count() {
        match keep_first_frame(alloc, plan, v, depot, buffer) {
            Ok(()) => (),
            Err(fault) => return Err(fault),
        }
    }
    Ok(())
}

/// Stores the first snapshot of a vertex, if it is an operator.
fn keep_first_frame<D: Depot>(
    alloc: Global,
    plan: &Plan,
    v: u32,
    depot: &mut D,
    buffer: &mut Vec<u8>,
) -> Result<(), VaultFault>
    requires vertex { v < length (plan_numbers plan.now).vertices }
    requires holds { HoldsFirstBelow plan.now v (D.told depot.old).contents }
    ensures { KeepsFirst plan.now (v + 1) (D.told depot.old) (D.told depot.new) result }
{
    plan_facts(plan);
    snapshot_facts(plan);
    let job = plan.job();
    let graph = job.graph();
    match job.spec(v) {
        None => Ok(()),
        Some(spec) => match first_frame(alloc, v, spec, graph.node(v).width) {
            Ok(f) => keep_frame(depot, &f, buffer),
            Err(_) => Err(VaultFault::Memory),
        },
    }
}

/// The snapshot of a vertex with this operator and so many inputs that has read nothing.
fn first_frame(alloc: Global, v: u32, spec: &Spec, width: u32) -> Result<Frame, Memory>
    ensures { IfOk result (λ f. f ≡ first_frame v spec.now width) }
{
    let image = match spec {
        Spec::Select { .. } | Spec::Union => Vec::new(alloc),
        Spec::Window { .. } | Spec::Session { .. } => Vec::from_slice(alloc, &[0; 4])?,
        Spec::Join | Spec::Except => Vec::from_slice(alloc, &[0; 8])?,
    };
    Ok(Frame {
        v,
        n: 0,
        out: 0,
        op: op_number(spec),
        width,
        pos: [0; 8],
        bounds: [0; 8],
        image: Image::of(image),
    })
}

/// The number by which a snapshot tells its operator.
fn op_number(spec: &Spec) -> u8
    ensures { result ≡ op_number spec.now }
{
    match spec {
        Spec::Select { .. } => 1,
        Spec::Union => 2,
        Spec::Window { .. } => 3,
        Spec::Join => 4,
        Spec::Session { .. } => 5,
        Spec::Except => 6,
    }
}
