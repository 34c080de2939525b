ghost use Rattle.std.specs.Prelude.{All};
ghost use Rattle.ss_engine.specs.Applies.{MayApply};
ghost use Rattle.ss_engine.specs.Joint.{Joint};
ghost use Rattle.ss_engine.specs.Plays.{Plays};
ghost use Rattle.ss_engine.specs.PlaysOne.{PlaysOne};
ghost use Rattle.ss_engine.specs.Told.{plant_told};

use crate::applying::apply;
use crate::plant::Plant;
use crate::trace::Trace;
use ss_acts::EngineFault;
use ss_fail::{Act, Outcome};
use ss_outside::{Depot, Outputs};

/// Makes the acts one behind the other, up to the first fault. A trace that keeps acts gets each that was made, with
/// what came of it.
pub fn play<O: Outputs, D: Depot>(
    plant: &mut Plant<O, D>,
    acts: &[Act],
    trace: &mut Trace,
) -> Result<(), EngineFault>
    requires joint { Joint (plant_told O.told D.told plant.old) }
    requires acts { All (MayApply (plant_told O.told D.told plant.old).plan) acts.now }
    ensures joint { Joint (plant_told O.told D.told plant.new) }
    ensures plays { Plays (plant_told O.told D.told plant.old) acts.now trace.old
        result (plant_told O.told D.told plant.new) trace.new }
{
    for act in acts {
        match play_one(plant, *act, trace) {
            Ok(_) => (),
            Err(fault) => return Err(fault),
        }
    }
    Ok(())
}

/// Makes an act, puts it with what came of it behind the others of a trace that keeps them, and tells what came of it.
/// Its place there is reserved first, so that none is made that can't be told.
pub fn play_one<O: Outputs, D: Depot>(
    plant: &mut Plant<O, D>,
    act: Act,
    trace: &mut Trace,
) -> Result<Outcome, EngineFault>
    requires joint { Joint (plant_told O.told D.told plant.old) }
    requires act { MayApply (plant_told O.told D.told plant.old).plan act }
    ensures joint { Joint (plant_told O.told D.told plant.new) }
    ensures plays { PlaysOne (plant_told O.told D.told plant.old) act trace.old
        result (plant_told O.told D.told plant.new) trace.new }
{
    if !trace.keeps {
        return apply(plant, act);
    }
    match trace.pairs.reserve(1) {
        Ok(()) => (),
        Err(_) => return Err(EngineFault::Memory),
    }
    match apply(plant, act) {
        Ok(outcome) => {
            trace.pairs.push_reserved((act, outcome));
            Ok(outcome)
        }
        Err(fault) => Err(fault),
    }
}
