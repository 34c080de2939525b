ghost use Rattle.ss_engine.specs.Applies.{AppliesJointly, MayApply};
ghost use Rattle.ss_engine.specs.Joint.{Joint};
ghost use Rattle.ss_engine.specs.Told.{plant_told};

use crate::plant::Plant;
use ss_acts::EngineFault;
use ss_fail::{Act, Outcome};
use ss_outside::{Depot, Outputs};

/// Makes an act. At a fault the job is as it was, but for what a flush had stored or a pass had dropped before it, and
/// for a vault that is halted by a fault of a device or by damage.
pub fn apply<O: Outputs, D: Depot>(
    plant: &mut Plant<O, D>,
    act: Act,
) -> Result<Outcome, EngineFault>
    requires joint { Joint (plant_told O.told D.told plant.old) }
    requires act { MayApply (plant_told O.told D.told plant.old).plan act }
    ensures { AppliesJointly (plant_told O.told D.told plant.old) act result (plant_told O.told D.told plant.new) }
{
    match act {
        Act::Read { v, r } => plant.read(v, r),
        Act::Write { v, r } => plant.write(v, r),
        Act::Snap { v, r } => plant.snap(v, r),
        Act::Crash { v, r } => Ok(plant.crash(v, r)),
        Act::Load { v, r } => plant.load(v, r),
        Act::Lose { v } => Ok(plant.lose(v)),
        Act::Flush { v, count } => plant.flush(v, count),
        Act::Take { k } => plant.take(k),
        Act::Collect { v } => plant.collect(v),
        Act::Trim { v } => plant.trim(v),
        Act::Pass => plant.pass(),
    }
}
