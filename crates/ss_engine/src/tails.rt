ghost use Rattle.std.specs.Prelude.{Ok};
ghost use Rattle.ss_engine.specs.Applies.{AppliesJointly};
ghost use Rattle.ss_engine.specs.Joint.{Joint};
ghost use Rattle.ss_fail.specs.declared.act.Act.TheVariants as act;
ghost use Rattle.ss_frames.specs.Plans.{plan_numbers};
ghost use Rattle.ss_state.specs.Numbers.{IsStream};
ghost use Rattle.ss_state.specs.Step.{MayAct};

use crate::laws::act_laws;
use crate::plant::Plant;
use ss_acts::{EngineFault, act_flush, act_lose};
use ss_fail::Outcome;
use ss_outside::{Depot, Outputs};

impl<O: Outputs, D: Depot> Plant<O, D> {
    ghost use Rattle.ss_engine.specs.Told.{plant_told};

    /// The elements of the tail of vertex `v` are lost.
    pub(crate) fn lose(&mut self, v: u32) -> Outcome
        requires joint { Joint (plant_told O.told D.told self.old) }
        requires stream { IsStream (plan_numbers (plant_told O.told D.told self.old).plan) v }
        ensures { AppliesJointly (plant_told O.told D.told self.old)
            (act.Lose v) (Ok result) (plant_told O.told D.told self.new) }
    {
        act_laws();
        act_lose(&mut self.tails[v as usize])
    }
    /// At most `count` elements of the tail of vertex `v` are stored, those that aren't known to be first.
    pub(crate) fn flush(&mut self, v: u32, count: u32) -> Result<Outcome, EngineFault>
        requires joint { Joint (plant_told O.told D.told self.old) }
        requires act { MayAct (plan_numbers (plant_told O.told D.told self.old).plan) (act.Flush v count) }
        ensures { AppliesJointly (plant_told O.told D.told self.old)
            (act.Flush v count) result (plant_told O.told D.told self.new) }
    {
        act_laws();
        let tail = &mut self.tails[v as usize];
        act_flush(&self.plan, v, count, tail, &mut self.vault)
    }
}
