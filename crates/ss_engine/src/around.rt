ghost use Rattle.std.specs.Prelude.{◌≡◌, ◌<◌, IfErr, IfOk, length, map};
ghost use Rattle.std.specs.Arc.{arc_value};
ghost use Rattle.ss_engine.specs.Around.{AreDownReplicas, BeginBehind, HaveDownReplicas, IsAround, IsDownReplica};
ghost use Rattle.ss_engine.specs.Joint.{Joint};
ghost use Rattle.ss_frames.specs.Plans.{plan_numbers};
ghost use Rattle.ss_plan.specs.Plan.{vertices_of};
ghost use Rattle.ss_state.specs.NumbersOfMeaning.{GivesStream};
ghost use Rattle.ss_vault.specs.Sound.{Sound};
ghost use Rattle.ss_vault.specs.Told.{vault_told};
ghost use Rattle.ss_vault.specs.declared.fault.VaultFault.TheVariants as fault;

use crate::allowed::{replica_count, vertex_count};
use crate::plant::Plant;
use ss_acts::act_facts;
use ss_outside::{Depot, Outputs};
use ss_plan::Plan;
use ss_tail::Tail;
use ss_vault::{Refused, Vault, VaultFault};
use ss_vertex::Inst;
use std::alloc::{AllocError, Global};
use std::sync::Arc;

impl<O: Outputs, D: Depot> Plant<O, D> {
    ghost use Rattle.ss_engine.specs.Told.{plant_told};

    /// The job of a plan that goes on from what is stored alone. Where memory is wanting, the devices of the vault are
    /// given back.
    pub fn around(
        alloc: Global,
        plan: Arc<Plan>,
        vault: Vault<O, D>,
    ) -> Result<Plant<O, D>, Refused<O, D>>
        requires sound { Sound (arc_value plan) (vault_told O.told D.told vault) }
        ensures joint { IfOk result (λ plant. Joint (plant_told O.told D.told plant)) }
        ensures around { IfOk result (λ plant.
            IsAround (arc_value plan) (vault_told O.told D.told vault) (plant_told O.told D.told plant)) }
        ensures fault { IfErr result (λ refused. refused.fault ≡ fault.Memory) }
        ensures depot { IfErr result (λ refused.
            D.told refused.depot ≡ (vault_told O.told D.told vault).depot) }
        ensures outputs { IfErr result (λ refused.
            O.told refused.outputs ≡ (vault_told O.told D.told vault).outputs) }
    {
        act_facts(&plan);
        let (tails, insts) = match parts_behind(alloc, &plan, &vault) {
            Ok(parts) => parts,
            Err(_) => {
                let (depot, outputs) = vault.into_parts();
                return Err(Refused {
                    fault: VaultFault::Memory,
                    depot,
                    outputs,
                });
            }
        };
        Ok(Plant {
            plan,
            tails,
            insts,
            vault,
        })
    }
}

/// The tails and the replicas of all vertices, where nothing but what is stored is there.
fn parts_behind<O: Outputs, D: Depot>(
    alloc: Global,
    plan: &Plan,
    vault: &Vault<O, D>,
) -> Result<(Vec<Tail>, Vec<Vec<Inst>>), AllocError>
    requires { Sound plan.now (vault_told O.told D.told vault.now) }
    ensures tails { IfOk result (λ parts.
        BeginBehind (vault_told O.told D.told vault.now) (length (plan_numbers plan.now).vertices) parts.0.items) }
    ensures insts { IfOk result (λ parts. HaveDownReplicas plan.now (length (plan_numbers plan.now).vertices)
        (map (λ replicas. replicas.items) parts.1.items)) }
{
    let tails = tails_behind(alloc, plan, vault)?;
    let insts = down_insts(alloc, plan)?;
    Ok((tails, insts))
}

/// A tail for each vertex, which begins behind what is stored of it.
fn tails_behind<O: Outputs, D: Depot>(
    alloc: Global,
    plan: &Plan,
    vault: &Vault<O, D>,
) -> Result<Vec<Tail>, AllocError>
    requires { Sound plan.now (vault_told O.told D.told vault.now) }
    ensures { IfOk result (λ tails.
        BeginBehind (vault_told O.told D.told vault.now) (length (plan_numbers plan.now).vertices) tails.items) }
{
    let mut tails = Vec::new(alloc);
    for v in 0..vertex_count(plan) {
        let mut tail = Tail::new(alloc);
        tail.restart(vault.dur(v));
        tails.push(tail)?;
    }
    Ok(tails)
}

/// The replicas of each vertex, all of them down.
fn down_insts(alloc: Global, plan: &Plan) -> Result<Vec<Vec<Inst>>, AllocError>
    ensures { IfOk result (λ insts. HaveDownReplicas plan.now (length (plan_numbers plan.now).vertices)
        (map (λ replicas. replicas.items) insts.items)) }
{
    let mut insts = Vec::new(alloc);
    for v in 0..vertex_count(plan) {
        let replicas = down_replicas(alloc, plan, v)?;
        insts.push(replicas)?;
    }
    Ok(insts)
}

/// The replicas of a vertex, all of them down.
fn down_replicas(alloc: Global, plan: &Plan, v: u32) -> Result<Vec<Inst>, AllocError>
    requires { v < length (plan_numbers plan.now).vertices }
    ensures { IfOk result (λ replicas. AreDownReplicas plan.now v replicas.items) }
{
    let mut replicas = Vec::new(alloc);
    for r in 0..replica_count(plan, v) {
        let inst = down_inst(alloc, plan, v)?;
        replicas.push(inst)?;
    }
    Ok(replicas)
}

/// An instance of a vertex that is down.
fn down_inst(alloc: Global, plan: &Plan, v: u32) -> Result<Inst, AllocError>
    requires { GivesStream (vertices_of plan.now) v }
    ensures { IfOk result (IsDownReplica plan.now v) }
{
    let mut inst = Inst::fresh(alloc, plan, v)?;
    inst.crash();
    Ok(inst)
}
