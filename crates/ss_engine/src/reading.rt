ghost use Rattle.std.specs.Prelude.{◌≡◌, ◌<◌, length};
ghost use Rattle.ss_acts.specs.Parts.{vertex_of};
ghost use Rattle.ss_acts.specs.Readings.{IsReady, wanted_from};
ghost use Rattle.ss_engine.specs.Applies.{AppliesJointly};
ghost use Rattle.ss_engine.specs.Joint.{Joint};
ghost use Rattle.ss_fail.specs.declared.act.Act.TheVariants as act;
ghost use Rattle.ss_frames.specs.Plans.{plan_numbers};
ghost use Rattle.ss_state.specs.Numbers.{IsOperator};
ghost use Rattle.ss_state.specs.Step.{IsReplica};
ghost use Rattle.ss_vertex.specs.Standing.{InstStands};
ghost use Rattle.ss_water.specs.declared.node.Kind.TheVariants.{Source};

use crate::laws::act_laws;
use crate::plant::Plant;
use ss_acts::{
    EngineFault, ReadPart, act_facts, act_read, act_read_kept, act_read_source, is_operator,
    stream_read,
};
use ss_fail::Outcome;
use ss_outside::{Depot, Outputs};
use ss_plan::Plan;
use ss_vertex::Inst;

impl<O: Outputs, D: Depot> Plant<O, D> {
    ghost use Rattle.ss_engine.specs.Told.{plant_told};

    /// Replica `r` of vertex `v` takes its next element.
    pub(crate) fn read(&mut self, v: u32, r: u32) -> Result<Outcome, EngineFault>
        requires joint { Joint (plant_told O.told D.told self.old) }
        requires replica { IsReplica (plan_numbers (plant_told O.told D.told self.old).plan) v r }
        ensures { AppliesJointly (plant_told O.told D.told self.old)
            (act.Read v r) result (plant_told O.told D.told self.new) }
    {
        if is_operator(&self.plan, v) {
            self.read_inputs(v, r)
        } else {
            self.read_list(v, r)
        }
    }

    /// A replica of a source takes the next element of its list.
    fn read_list(&mut self, v: u32, r: u32) -> Result<Outcome, EngineFault>
        requires joint { Joint (plant_told O.told D.told self.old) }
        requires replica { IsReplica (plan_numbers (plant_told O.told D.told self.old).plan) v r }
        requires source { (vertex_of (plant_told O.told D.told self.old).plan v).kind ≡ Source }
        ensures { AppliesJointly (plant_told O.told D.told self.old)
            (act.Read v r) result (plant_told O.told D.told self.new) }
    {
        act_laws();
        act_facts(&self.plan);
        let inst = &mut self.insts[v as usize][r as usize];
        act_read_source(&self.plan, inst, &self.vault)
    }

    /// A replica of an operator takes the next element of its inputs: from the tail of the one that it wants, or else
    /// from what is stored.
    fn read_inputs(&mut self, v: u32, r: u32) -> Result<Outcome, EngineFault>
        requires joint { Joint (plant_told O.told D.told self.old) }
        requires replica { IsReplica (plan_numbers (plant_told O.told D.told self.old).plan) v r }
        requires operator { IsOperator (plan_numbers (plant_told O.told D.told self.old).plan) v }
        ensures { AppliesJointly (plant_told O.told D.told self.old)
            (act.Read v r) result (plant_told O.told D.told self.new) }
    {
        act_laws();
        act_facts(&self.plan);
        let inst = &mut self.insts[v as usize][r as usize];
        let u = vertex_wanted(&self.plan, inst);
        match act_read(&self.plan, inst, &self.tails[u as usize]) {
            Ok(part) => match part {
                ReadPart::Did(outcome) => Ok(outcome),
                ReadPart::AskVault => act_read_kept(&self.plan, inst, &mut self.vault),
            },
            Err(fault) => Err(fault),
        }
    }
}

/// The vertex from which a replica of an operator wants its next element; where it may not read, any vertex serves.
fn vertex_wanted(plan: &Plan, inst: &Inst) -> u32
    requires stands { InstStands plan.now inst.now }
    requires operator { IsOperator (plan_numbers plan.now) inst.now.v }
    ensures within { result < length (plan_numbers plan.now).vertices }
    ensures wanted { IsReady plan.now inst.now → result ≡ wanted_from plan.now inst.now }
{
    act_facts(plan);
    let v = inst.v();
    if !inst.is_up() {
        return v;
    }
    match inst.wants() {
        Some(place) => stream_read(plan, v, place.0),
        None => v,
    }
}
