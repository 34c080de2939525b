ghost use Rattle.std.specs.Prelude.{◌≡◌, ◌+◌, false, IfOk, true};
ghost use Rattle.ss_engine.specs.Joint.{Joint};
ghost use Rattle.ss_engine.specs.Told.{plant_told};
ghost use Rattle.ss_serial.specs.Drives.{CanFire};
ghost use Rattle.ss_serial.specs.Headway.{Advances};
ghost use Rattle.ss_serial.specs.Stored.{GivesStream, IsStored, StoredBelow, is_over as is_over_of};
ghost use Rattle.ss_serial.specs.Stored.{vertex_count as vertex_count_of};

use crate::acting::act_by_rule;
use crate::state::{has_batch, is_over};
use crate::storing::store;
use ss_engine::{EngineFault, Plant, Trace, is_stream, vertex_count};
use ss_fail::Trigger;
use ss_outside::{Depot, Outputs};
use ss_rounds::what_is_over_is_whole;

/// How many acts a replica makes at most in a turn.
const TURN: u32 = 256;

/// Gives each stream a turn, in the order of declaration.
pub(crate) fn turns<O: Outputs, D: Depot>(
    plant: &mut Plant<O, D>,
    triggers: &[Trigger],
    trace: &mut Trace,
) -> Result<bool, EngineFault>
    requires joint { Joint (plant_told O.told D.told plant.old) }
    requires triggers { CanFire (plant_told O.told D.told plant.old) triggers.now }
    ensures joint { Joint (plant_told O.told D.told plant.new) }
    ensures advances { Advances triggers.now (plant_told O.told D.told plant.old) trace.old
        result (plant_told O.told D.told plant.new) trace.new }
    ensures stored { IfOk result (λ moved. moved ≡ false → StoredBelow (plant_told O.told D.told plant.new)
        (vertex_count_of (plant_told O.told D.told plant.new))) }
{
    let mut moved = false;
    for v in 0..vertex_count(plant.plan()) {
        match turn_of(plant, v, triggers, trace) {
            Ok(went) => moved = moved | went,
            Err(fault) => return Err(fault),
        }
    }
    Ok(moved)
}

/// Gives vertex `v` its turn, if it gives a stream.
fn turn_of<O: Outputs, D: Depot>(
    plant: &mut Plant<O, D>,
    v: u32,
    triggers: &[Trigger],
    trace: &mut Trace,
) -> Result<bool, EngineFault>
    requires joint { Joint (plant_told O.told D.told plant.old) }
    requires triggers { CanFire (plant_told O.told D.told plant.old) triggers.now }
    ensures joint { Joint (plant_told O.told D.told plant.new) }
    ensures advances { Advances triggers.now (plant_told O.told D.told plant.old) trace.old
        result (plant_told O.told D.told plant.new) trace.new }
    ensures stored { IfOk result (λ moved. moved ≡ false → StoredBelow (plant_told O.told D.told plant.old) v
        → StoredBelow (plant_told O.told D.told plant.new) (v + 1)) }
{
    if !is_stream(plant.plan(), v) {
        return Ok(false);
    }
    turn(plant, v, triggers, trace)
}

/// Lets the first replica of stream `v` make some acts, and stores the next batch of its stream.
fn turn<O: Outputs, D: Depot>(
    plant: &mut Plant<O, D>,
    v: u32,
    triggers: &[Trigger],
    trace: &mut Trace,
) -> Result<bool, EngineFault>
    requires joint { Joint (plant_told O.told D.told plant.old) }
    requires stream { GivesStream (plant_told O.told D.told plant.old) v }
    requires triggers { CanFire (plant_told O.told D.told plant.old) triggers.now }
    ensures joint { Joint (plant_told O.told D.told plant.new) }
    ensures advances { Advances triggers.now (plant_told O.told D.told plant.old) trace.old
        result (plant_told O.told D.told plant.new) trace.new }
    ensures stored { IfOk result (λ moved. moved ≡ false → StoredBelow (plant_told O.told D.told plant.old) v
        → IsStored (plant_told O.told D.told plant.new) v) }
{
    what_is_over_is_whole();
    let moved = match work(plant, v, triggers, trace) {
        Ok(moved) => moved,
        Err(fault) => return Err(fault),
    };
    if !has_batch(plant, v) {
        return Ok(moved);
    }
    match store(plant, v, trace) {
        Ok(()) => Ok(true),
        Err(fault) => Err(fault),
    }
}

/// Lets the first replica of stream `v` make acts until nothing is left to do for it, it waits, or its turn is over.
fn work<O: Outputs, D: Depot>(
    plant: &mut Plant<O, D>,
    v: u32,
    triggers: &[Trigger],
    trace: &mut Trace,
) -> Result<bool, EngineFault>
    requires joint { Joint (plant_told O.told D.told plant.old) }
    requires stream { GivesStream (plant_told O.told D.told plant.old) v }
    requires triggers { CanFire (plant_told O.told D.told plant.old) triggers.now }
    ensures joint { Joint (plant_told O.told D.told plant.new) }
    ensures advances { Advances triggers.now (plant_told O.told D.told plant.old) trace.old
        result (plant_told O.told D.told plant.new) trace.new }
    ensures over { IfOk result (λ moved. moved ≡ false → StoredBelow (plant_told O.told D.told plant.old) v
        → is_over_of (plant_told O.told D.told plant.new) v ≡ true) }
{
    let mut moved = false;
    for _ in 0..TURN {
        if is_over(plant, v) {
            return Ok(moved);
        }
        match act_by_rule(plant, v, triggers, trace) {
            Ok(true) => moved = true,
            Ok(false) => return Ok(moved),
            Err(fault) => return Err(fault),
        }
    }
    Ok(moved)
}
