ghost use Rattle.std.specs.Prelude.{◌≡◌, ◌+◌, false, IfOk, List, true};
ghost use Rattle.ss_engine.specs.Joint.{Joint};
ghost use Rattle.ss_engine.specs.Told.{plant_told};
ghost use Rattle.ss_fail.specs.declared.trigger.Trigger.{Trigger};
ghost use Rattle.ss_serial.specs.Headway.{Advances, Lowers};
ghost use Rattle.ss_serial.specs.Stored.{IsPut, IsStored, PutBelow, StoredBelow, TakesStream, has_line as has_line_of};
ghost use Rattle.ss_serial.specs.Stored.{stream_put, vertex_count as vertex_count_of};

use crate::state::has_line;
use ss_engine::{EngineFault, Plant, Trace, is_sink, play_one, vertex_count};
use ss_fail::Act;
use ss_outside::{Depot, Outputs};
use ss_rounds::takes_lower_the_total;

/// Lets each sink put what is stored of its stream, in the order of declaration.
pub(crate) fn takes<O: Outputs, D: Depot>(
    plant: &mut Plant<O, D>,
    trace: &mut Trace,
) -> Result<bool, EngineFault>
    requires joint { Joint (plant_told O.told D.told plant.old) }
    ensures joint { Joint (plant_told O.told D.told plant.new) }
    ensures advances { (ts : List Trigger) → Advances ts (plant_told O.told D.told plant.old) trace.old
        result (plant_told O.told D.told plant.new) trace.new }
    ensures put { IfOk result (λ moved. moved ≡ false
        → StoredBelow (plant_told O.told D.told plant.old) (vertex_count_of (plant_told O.told D.told plant.old))
        → PutBelow (plant_told O.told D.told plant.new) (vertex_count_of (plant_told O.told D.told plant.new))) }
{
    let mut moved = false;
    for k in 0..vertex_count(plant.plan()) {
        match take_of(plant, k, trace) {
            Ok(took) => moved = moved | took,
            Err(fault) => return Err(fault),
        }
    }
    Ok(moved)
}

/// Lets vertex `k` put what is stored, if it is a sink.
fn take_of<O: Outputs, D: Depot>(
    plant: &mut Plant<O, D>,
    k: u32,
    trace: &mut Trace,
) -> Result<bool, EngineFault>
    requires joint { Joint (plant_told O.told D.told plant.old) }
    ensures joint { Joint (plant_told O.told D.told plant.new) }
    ensures advances { (ts : List Trigger) → Advances ts (plant_told O.told D.told plant.old) trace.old
        result (plant_told O.told D.told plant.new) trace.new }
    ensures put { IfOk result (λ moved. moved ≡ false
        → StoredBelow (plant_told O.told D.told plant.old) (vertex_count_of (plant_told O.told D.told plant.old))
        → PutBelow (plant_told O.told D.told plant.old) k
        → PutBelow (plant_told O.told D.told plant.new) (k + 1)) }
{
    if !is_sink(plant.plan(), k) {
        return Ok(false);
    }
    take_stored(plant, k, trace)
}

/// Puts the lines of sink `k` that are stored.
fn take_stored<O: Outputs, D: Depot>(
    plant: &mut Plant<O, D>,
    k: u32,
    trace: &mut Trace,
) -> Result<bool, EngineFault>
    requires joint { Joint (plant_told O.told D.told plant.old) }
    requires sink { TakesStream (plant_told O.told D.told plant.old) k }
    ensures joint { Joint (plant_told O.told D.told plant.new) }
    ensures advances { (ts : List Trigger) → Advances ts (plant_told O.told D.told plant.old) trace.old
        result (plant_told O.told D.told plant.new) trace.new }
    ensures put { IfOk result (λ moved. moved ≡ false
        → IsStored (plant_told O.told D.told plant.old) (stream_put (plant_told O.told D.told plant.old) k)
        → IsPut (plant_told O.told D.told plant.new) k) }
{
    let mut moved = false;
    while has_line(plant, k) {
        match take_line(plant, k, trace) {
            Ok(()) => moved = true,
            Err(fault) => return Err(fault),
        }
    }
    Ok(moved)
}

/// Puts the next line of sink `k`, which is stored.
fn take_line<O: Outputs, D: Depot>(
    plant: &mut Plant<O, D>,
    k: u32,
    trace: &mut Trace,
) -> Result<(), EngineFault>
    requires joint { Joint (plant_told O.told D.told plant.old) }
    requires sink { TakesStream (plant_told O.told D.told plant.old) k }
    requires stored { has_line_of (plant_told O.told D.told plant.old) k ≡ true }
    ensures joint { Joint (plant_told O.told D.told plant.new) }
    ensures lowers { (ts : List Trigger) → Lowers ts (plant_told O.told D.told plant.old) trace.old
        result (plant_told O.told D.told plant.new) trace.new }
{
    takes_lower_the_total();
    match play_one(plant, Act::Take { k }, trace) {
        Ok(_) => Ok(()),
        Err(fault) => Err(fault),
    }
}
