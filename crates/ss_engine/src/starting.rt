ghost use Rattle.std.specs.Prelude.{◌≡◌, ◌<◌, IfErr, IfOk, length, map, replicate};
ghost use Rattle.std.specs.Arc.{arc_value};
ghost use Rattle.ss_engine.specs.Begins.{Begins};
ghost use Rattle.ss_engine.specs.FirstParts.{AreFirstReplicas, HaveFirstReplicas};
ghost use Rattle.ss_engine.specs.Joint.{Joint};
ghost use Rattle.ss_frames.specs.Plans.{plan_numbers};
ghost use Rattle.ss_outside.specs.Depot.{no_contents};
ghost use Rattle.ss_tail.specs.Held.{empty};
ghost use Rattle.ss_vault.specs.Calls.{HaveNoBytes, RefusesStart};

use crate::allowed::{replica_count, vertex_count};
use crate::plant::Plant;
use ss_acts::act_facts;
use ss_outside::{Depot, Outputs};
use ss_plan::Plan;
use ss_state::first_state_is_joint;
use ss_tail::Tail;
use ss_vault::{Refused, Vault, VaultFault};
use ss_vertex::Inst;
use std::alloc::{AllocError, Global};
use std::sync::Arc;

impl<O: Outputs, D: Depot> Plant<O, D> {
    ghost use Rattle.ss_engine.specs.Told.{plant_told};

    /// The job of a plan that begins, over a depot that holds nothing and outputs with no bytes: no element was read,
    /// and the first snapshot of each operator is stored.
    pub fn start(
        alloc: Global,
        plan: Arc<Plan>,
        depot: D,
        outputs: O,
    ) -> Result<Plant<O, D>, Refused<O, D>>
        requires depot { (D.told depot).contents ≡ no_contents }
        requires outputs { HaveNoBytes (O.told outputs) }
        ensures joint { IfOk result (λ plant. Joint (plant_told O.told D.told plant)) }
        ensures begins { IfOk result (λ plant.
            Begins (arc_value plan) (O.told outputs) (D.told depot) (plant_told O.told D.told plant)) }
        ensures refused { IfErr result (λ refused.
            RefusesStart (arc_value plan) refused.fault (D.told depot) (D.told refused.depot)) }
        ensures outputs { IfErr result (λ refused. O.told refused.outputs ≡ O.told outputs) }
    {
        first_state_is_joint();
        act_facts(&plan);
        let (tails, insts) = match first_parts(alloc, &plan) {
            Ok(parts) => parts,
            Err(_) => {
                return Err(Refused {
                    fault: VaultFault::Memory,
                    depot,
                    outputs,
                });
            }
        };
        match Vault::start(alloc, &plan, depot, outputs) {
            Ok(vault) => Ok(Plant {
                plan,
                tails,
                insts,
                vault,
            }),
            Err(refused) => Err(refused),
        }
    }
}

/// The tails and the replicas of all vertices at the start.
fn first_parts(alloc: Global, plan: &Plan) -> Result<(Vec<Tail>, Vec<Vec<Inst>>), AllocError>
    ensures tails { IfOk result (λ parts.
        parts.0.items ≡ replicate (length (plan_numbers plan.now).vertices) empty) }
    ensures insts { IfOk result (λ parts. HaveFirstReplicas plan.now (length (plan_numbers plan.now).vertices)
        (map (λ replicas. replicas.items) parts.1.items)) }
{
    let tails = first_tails(alloc, vertex_count(plan))?;
    let insts = first_insts(alloc, plan)?;
    Ok((tails, insts))
}

/// So many tails that hold nothing.
fn first_tails(alloc: Global, count: u32) -> Result<Vec<Tail>, AllocError>
    ensures { IfOk result (λ tails. tails.items ≡ replicate count empty) }
{
    let mut tails = Vec::new(alloc);
    for _v in 0..count {
        tails.push(Tail::new(alloc))?;
    }
    Ok(tails)
}

/// The replicas of each vertex at the start.
fn first_insts(alloc: Global, plan: &Plan) -> Result<Vec<Vec<Inst>>, AllocError>
    ensures { IfOk result (λ insts. HaveFirstReplicas plan.now (length (plan_numbers plan.now).vertices)
        (map (λ replicas. replicas.items) insts.items)) }
{
    let mut insts = Vec::new(alloc);
    for v in 0..vertex_count(plan) {
        let replicas = first_replicas(alloc, plan, v)?;
        insts.push(replicas)?;
    }
    Ok(insts)
}

/// The replicas of a vertex at the start.
fn first_replicas(alloc: Global, plan: &Plan, v: u32) -> Result<Vec<Inst>, AllocError>
    requires { v < length (plan_numbers plan.now).vertices }
    ensures { IfOk result (λ replicas. AreFirstReplicas plan.now v replicas.items) }
{
    let mut replicas = Vec::new(alloc);
    for r in 0..replica_count(plan, v) {
        let inst = Inst::fresh(alloc, plan, v)?;
        replicas.push(inst)?;
    }
    Ok(replicas)
}
