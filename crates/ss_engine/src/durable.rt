ghost use Rattle.ss_engine.specs.Applies.{AppliesJointly};
ghost use Rattle.ss_engine.specs.Joint.{Joint};
ghost use Rattle.ss_fail.specs.declared.act.Act.TheVariants as act;
ghost use Rattle.ss_frames.specs.Plans.{plan_numbers};
ghost use Rattle.ss_state.specs.Numbers.{IsSink, IsStream};
ghost use Rattle.ss_state.specs.Step.{IsReplica};

use crate::laws::act_laws;
use crate::plant::Plant;
use ss_acts::{EngineFault, act_collect, act_pass, act_snap, act_take, act_trim};
use ss_fail::Outcome;
use ss_outside::{Depot, Outputs};

impl<O: Outputs, D: Depot> Plant<O, D> {
    ghost use Rattle.ss_engine.specs.Told.{plant_told};

    /// Replica `r` of vertex `v` gives its snapshot to the vault.
    pub(crate) fn snap(&mut self, v: u32, r: u32) -> Result<Outcome, EngineFault>
        requires joint { Joint (plant_told O.told D.told self.old) }
        requires replica { IsReplica (plan_numbers (plant_told O.told D.told self.old).plan) v r }
        ensures { AppliesJointly (plant_told O.told D.told self.old)
            (act.Snap v r) result (plant_told O.told D.told self.new) }
    {
        act_laws();
        let alloc = *self.tails.allocator();
        let inst = &self.insts[v as usize][r as usize];
        act_snap(alloc, &self.plan, inst, &mut self.vault)
    }

    /// Sink `k` puts the line of the next stored element of its stream.
    pub(crate) fn take(&mut self, k: u32) -> Result<Outcome, EngineFault>
        requires joint { Joint (plant_told O.told D.told self.old) }
        requires sink { IsSink (plan_numbers (plant_told O.told D.told self.old).plan) k }
        ensures { AppliesJointly (plant_told O.told D.told self.old)
            (act.Take k) result (plant_told O.told D.told self.new) }
    {
        act_laws();
        act_take(&self.plan, &mut self.vault, k)
    }

    /// The stored elements of vertex `v` that no reader needs are dropped.
    pub(crate) fn collect(&mut self, v: u32) -> Result<Outcome, EngineFault>
        requires joint { Joint (plant_told O.told D.told self.old) }
        requires stream { IsStream (plan_numbers (plant_told O.told D.told self.old).plan) v }
        ensures { AppliesJointly (plant_told O.told D.told self.old)
            (act.Collect v) result (plant_told O.told D.told self.new) }
    {
        act_laws();
        act_collect(&self.plan, &mut self.vault, v)
    }

    /// What is stored for vertex `v` itself and needed no more is given up.
    pub(crate) fn trim(&mut self, v: u32) -> Result<Outcome, EngineFault>
        requires joint { Joint (plant_told O.told D.told self.old) }
        requires stream { IsStream (plan_numbers (plant_told O.told D.told self.old).plan) v }
        ensures { AppliesJointly (plant_told O.told D.told self.old)
            (act.Trim v) result (plant_told O.told D.told self.new) }
    {
        act_laws();
        act_trim(&self.plan, &mut self.vault, v)
    }

    /// Every stream is collected and its vertex trimmed, from the last declared to the first.
    pub(crate) fn pass(&mut self) -> Result<Outcome, EngineFault>
        requires joint { Joint (plant_told O.told D.told self.old) }
        ensures { AppliesJointly (plant_told O.told D.told self.old)
            act.Pass result (plant_told O.told D.told self.new) }
    {
        act_laws();
        act_pass(&self.plan, &mut self.vault)
    }
}
