ghost use Rattle.std.specs.Prelude.{◌≡◌, false, IfOk, List, true};
ghost use Rattle.ss_fail.specs.declared.trigger.Trigger.{Trigger};
ghost use Rattle.ss_engine.specs.Joint.{Joint};
ghost use Rattle.ss_engine.specs.Plays.{Plays};
ghost use Rattle.ss_engine.specs.Told.{plant_told, state_of};
ghost use Rattle.ss_serial.specs.Drives.{CanFire};
ghost use Rattle.ss_rounds.specs.Whole.{is_wait as is_wait_of};
ghost use Rattle.ss_serial.specs.Headway.{Advances, Lowers};
ghost use Rattle.ss_serial.specs.Stored.{GivesStream, StoredBelow, is_idle, is_write as is_write_of, next_of};
ghost use Rattle.ss_state.specs.Rule.{acts_at, is_stored as is_stored_of};
ghost use Rattle.ss_state.specs.State.{tail_at};

use crate::state::first_act;
use ss_engine::{EngineFault, Plant, Trace, play_one};
use ss_fail::{Act, Outcome, Trigger};
use ss_manager::next_fired;
use ss_outside::{Depot, Outputs};
use ss_rounds::{failures_lower_the_total, ruled_acts_lower_the_total};
use ss_state::acts_keep_joint;

/// Makes the next act of the first replica of stream `v`, and behind it the failures that it fires. Tells false where
/// the replica waits for an element, which leaves the job as it was.
pub(crate) fn act_by_rule<O: Outputs, D: Depot>(
    plant: &mut Plant<O, D>,
    v: u32,
    triggers: &[Trigger],
    trace: &mut Trace,
) -> Result<bool, EngineFault>
    requires joint { Joint (plant_told O.told D.told plant.old) }
    requires stream { GivesStream (plant_told O.told D.told plant.old) v }
    requires triggers { CanFire (plant_told O.told D.told plant.old) triggers.now }
    requires busy { is_idle (plant_told O.told D.told plant.old) v ≡ false }
    ensures joint { Joint (plant_told O.told D.told plant.new) }
    ensures advances { Advances triggers.now (plant_told O.told D.told plant.old) trace.old
        result (plant_told O.told D.told plant.new) trace.new }
    ensures sure { StoredBelow (plant_told O.told D.told plant.old) v → IfOk result (λ moved. moved ≡ true) }
{
    let act = first_act(plant, v);
    if !is_write(&act) {
        return act_alone(plant, v, act, trace);
    }
    match write(plant, v, triggers, trace) {
        Ok(()) => Ok(true),
        Err(fault) => Err(fault),
    }
}

/// Whether an act is a write.
fn is_write(act: &Act) -> bool
    ensures { result ≡ is_write_of act.now }
{
    matches!(act, Act::Write { .. })
}

/// Makes the next act of that replica, which is no write and so fires nothing.
fn act_alone<O: Outputs, D: Depot>(
    plant: &mut Plant<O, D>,
    v: u32,
    act: Act,
    trace: &mut Trace,
) -> Result<bool, EngineFault>
    requires joint { Joint (plant_told O.told D.told plant.old) }
    requires stream { GivesStream (plant_told O.told D.told plant.old) v }
    requires busy { is_idle (plant_told O.told D.told plant.old) v ≡ false }
    requires next { act ≡ next_of (plant_told O.told D.told plant.old) v }
    requires no_write { is_write_of act ≡ false }
    ensures joint { Joint (plant_told O.told D.told plant.new) }
    ensures advances { (ts : List Trigger) → Advances ts (plant_told O.told D.told plant.old) trace.old
        result (plant_told O.told D.told plant.new) trace.new }
    ensures sure { StoredBelow (plant_told O.told D.told plant.old) v → IfOk result (λ moved. moved ≡ true) }
{
    ruled_acts_lower_the_total();
    match play_one(plant, act, trace) {
        Ok(outcome) => Ok(!is_wait(&outcome)),
        Err(fault) => Err(fault),
    }
}

/// Whether an act found that what it wants isn't there yet.
fn is_wait(outcome: &Outcome) -> bool
    ensures { result ≡ is_wait_of outcome.now }
{
    matches!(outcome, Outcome::Wait { .. })
}

/// Whether a write added an element to its stream.
fn is_stored(outcome: &Outcome) -> bool
    ensures { result ≡ is_stored_of outcome.now }
{
    matches!(outcome, Outcome::Stored { .. })
}

/// Lets the first replica of stream `v` write, and behind that makes the failures that it fires.
fn write<O: Outputs, D: Depot>(
    plant: &mut Plant<O, D>,
    v: u32,
    triggers: &[Trigger],
    trace: &mut Trace,
) -> Result<(), EngineFault>
    requires joint { Joint (plant_told O.told D.told plant.old) }
    requires stream { GivesStream (plant_told O.told D.told plant.old) v }
    requires triggers { CanFire (plant_told O.told D.told plant.old) triggers.now }
    requires busy { is_idle (plant_told O.told D.told plant.old) v ≡ false }
    requires next { is_write_of (next_of (plant_told O.told D.told plant.old) v) ≡ true }
    ensures joint { Joint (plant_told O.told D.told plant.new) }
    ensures lowers { Lowers triggers.now (plant_told O.told D.told plant.old) trace.old
        result (plant_told O.told D.told plant.new) trace.new }
{
    acts_keep_joint();
    ruled_acts_lower_the_total();
    failures_lower_the_total();
    let outcome = match play_one(plant, Act::Write { v, r: 0 }, trace) {
        Ok(outcome) => outcome,
        Err(fault) => return Err(fault),
    };
    if !is_stored(&outcome) {
        return Ok(());
    }
    fire(plant, v, triggers, trace)
}

/// Makes the failures that are listed for the count of elements that stream `v` has reached.
fn fire<O: Outputs, D: Depot>(
    plant: &mut Plant<O, D>,
    v: u32,
    triggers: &[Trigger],
    trace: &mut Trace,
) -> Result<(), EngineFault>
    requires joint { Joint (plant_told O.told D.told plant.old) }
    requires stream { GivesStream (plant_told O.told D.told plant.old) v }
    requires triggers { CanFire (plant_told O.told D.told plant.old) triggers.now }
    ensures joint { Joint (plant_told O.told D.told plant.new) }
    ensures plays { Plays (plant_told O.told D.told plant.old)
        (acts_at triggers.now v (tail_at (state_of (plant_told O.told D.told plant.old)) v).stored)
        trace.old result (plant_told O.told D.told plant.new) trace.new }
{
    let stored = plant.tail(v).stored();
    let mut start = 0;
    while let Some(place) = next_fired(triggers, start, v, stored) {
        match play_one(plant, triggers[place].act, trace) {
            Ok(_) => (),
            Err(fault) => return Err(fault),
        }
        start = place + 1;
    }
    Ok(())
}
