ghost use Rattle.std.specs.Prelude.{Ok};
ghost use Rattle.ss_engine.specs.Applies.{AppliesJointly};
ghost use Rattle.ss_engine.specs.Joint.{Joint};
ghost use Rattle.ss_fail.specs.declared.act.Act.TheVariants as act;
ghost use Rattle.ss_frames.specs.Plans.{plan_numbers};
ghost use Rattle.ss_state.specs.Step.{IsReplica};

use crate::laws::act_laws;
use crate::plant::Plant;
use ss_acts::{EngineFault, act_crash, act_load, act_write};
use ss_fail::Outcome;
use ss_outside::{Depot, Outputs};

impl<O: Outputs, D: Depot> Plant<O, D> {
    ghost use Rattle.ss_engine.specs.Told.{plant_told};

    /// Replica `r` of vertex `v` writes the first of the elements that it has made to the tail of `v`.
    pub(crate) fn write(&mut self, v: u32, r: u32) -> Result<Outcome, EngineFault>
        requires joint { Joint (plant_told O.told D.told self.old) }
        requires replica { IsReplica (plan_numbers (plant_told O.told D.told self.old).plan) v r }
        ensures { AppliesJointly (plant_told O.told D.told self.old)
            (act.Write v r) result (plant_told O.told D.told self.new) }
    {
        act_laws();
        let inst = &mut self.insts[v as usize][r as usize];
        act_write(&self.plan, inst, &mut self.tails[v as usize])
    }

    /// It goes down.
    pub(crate) fn crash(&mut self, v: u32, r: u32) -> Outcome
        requires joint { Joint (plant_told O.told D.told self.old) }
        requires replica { IsReplica (plan_numbers (plant_told O.told D.told self.old).plan) v r }
        ensures { AppliesJointly (plant_told O.told D.told self.old)
            (act.Crash v r) (Ok result) (plant_told O.told D.told self.new) }
    {
        act_laws();
        act_crash(&mut self.insts[v as usize][r as usize])
    }

    /// It comes up from what is stored of `v`, beside the tail of `v`.
    pub(crate) fn load(&mut self, v: u32, r: u32) -> Result<Outcome, EngineFault>
        requires joint { Joint (plant_told O.told D.told self.old) }
        requires replica { IsReplica (plan_numbers (plant_told O.told D.told self.old).plan) v r }
        ensures { AppliesJointly (plant_told O.told D.told self.old)
            (act.Load v r) result (plant_told O.told D.told self.new) }
    {
        act_laws();
        let inst = &mut self.insts[v as usize][r as usize];
        let tail = &mut self.tails[v as usize];
        act_load(&self.plan, inst, tail, &mut self.vault)
    }
}
