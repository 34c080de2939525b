ghost use Rattle.std.specs.Prelude.{◌≡◌, false, IfErr, IfOk, OnOk};
ghost use Rattle.ss_engine.specs.Joint.{Joint};
ghost use Rattle.ss_engine.specs.Told.{plant_told};
ghost use Rattle.ss_serial.specs.Drives.{CanFire, Drives};
ghost use Rattle.ss_serial.specs.Ends.{AllPut, IsExcuse};
ghost use Rattle.ss_serial.specs.Headway.{Advances};
ghost use Rattle.ss_serial.specs.Stored.{PutBelow, vertex_count};

use crate::taking::takes;
use crate::turns::turns;
use ss_engine::{EngineFault, Plant, Trace};
use ss_fail::Trigger;
use ss_outside::{Depot, Outputs};

/// Brings a job to its end: every sink puts all lines of its stream. Each failure that the triggers list is made
/// directly behind the write that reaches its count, and the job recovers from it.
pub fn finish<O: Outputs, D: Depot>(
    plant: &mut Plant<O, D>,
    triggers: &[Trigger],
    trace: &mut Trace,
) -> Result<(), EngineFault>
    requires joint { Joint (plant_told O.told D.told plant.old) }
    requires triggers { CanFire (plant_told O.told D.told plant.old) triggers.now }
    ensures joint { Joint (plant_told O.told D.told plant.new) }
    ensures drives { Drives triggers.now (plant_told O.told D.told plant.old) trace.old
        result (plant_told O.told D.told plant.new) trace.new }
    ensures put { OnOk result (AllPut (plant_told O.told D.told plant.new)) }
    ensures excused { IfErr result (λ fault. IsExcuse
        (plant_told O.told D.told plant.old) fault (plant_told O.told D.told plant.new)) }
{
    'rounds: loop {
        match round(plant, triggers, trace) {
            Ok(true) => (),
            Ok(false) => return Ok(()),
            Err(fault) => return Err(fault),
        }
    }
}

/// Gives each stream a turn, and then lets each sink put what is stored. Tells whether the job went forward: where it
/// didn't, every sink has put all lines of its stream.
pub fn round<O: Outputs, D: Depot>(
    plant: &mut Plant<O, D>,
    triggers: &[Trigger],
    trace: &mut Trace,
) -> Result<bool, EngineFault>
    requires joint { Joint (plant_told O.told D.told plant.old) }
    requires triggers { CanFire (plant_told O.told D.told plant.old) triggers.now }
    ensures joint { Joint (plant_told O.told D.told plant.new) }
    ensures advances { Advances triggers.now (plant_told O.told D.told plant.old) trace.old
        result (plant_told O.told D.told plant.new) trace.new }
    ensures put { IfOk result (λ moved. moved ≡ false → PutBelow (plant_told O.told D.told plant.new)
        (vertex_count (plant_told O.told D.told plant.new))) }
{
    let moved = match turns(plant, triggers, trace) {
        Ok(moved) => moved,
        Err(fault) => return Err(fault),
    };
    match takes(plant, trace) {
        Ok(took) => Ok(moved | took),
        Err(fault) => Err(fault),
    }
}
