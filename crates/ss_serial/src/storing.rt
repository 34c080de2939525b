ghost use Rattle.std.specs.Prelude.{◌≡◌, List, true};
ghost use Rattle.ss_engine.specs.Joint.{Joint};
ghost use Rattle.ss_engine.specs.Told.{plant_told};
ghost use Rattle.ss_fail.specs.declared.trigger.Trigger.{Trigger};
ghost use Rattle.ss_rounds.specs.Whole.{is_pass_due as is_pass_due_of};
ghost use Rattle.ss_serial.specs.Headway.{Lowers};
ghost use Rattle.ss_serial.specs.Stored.{GivesStream, has_batch};

use ss_engine::{EngineFault, Plant, Trace, play_one};
use ss_fail::{Act, Outcome};
use ss_outside::{Depot, Outputs};
use ss_rounds::flushes_lower_the_total;

/// Stores the next batch of stream `v`, which isn't empty; behind a pass, if one is due.
pub(crate) fn store<O: Outputs, D: Depot>(
    plant: &mut Plant<O, D>,
    v: u32,
    trace: &mut Trace,
) -> Result<(), EngineFault>
    requires joint { Joint (plant_told O.told D.told plant.old) }
    requires stream { GivesStream (plant_told O.told D.told plant.old) v }
    requires batch { has_batch (plant_told O.told D.told plant.old) v ≡ true }
    ensures joint { Joint (plant_told O.told D.told plant.new) }
    ensures lowers { (ts : List Trigger) → Lowers ts (plant_told O.told D.told plant.old) trace.old
        result (plant_told O.told D.told plant.new) trace.new }
{
    flushes_lower_the_total();
    let outcome = match play_one(plant, Act::Flush { v, count: 64 }, trace) {
        Ok(outcome) => outcome,
        Err(fault) => return Err(fault),
    };
    if !is_pass_due(&outcome) {
        return Ok(());
    }
    collect_and_store(plant, v, trace)
}

/// Whether a flush was told that a pass must be made first.
fn is_pass_due(outcome: &Outcome) -> bool
    ensures { result ≡ is_pass_due_of outcome.now }
{
    matches!(outcome, Outcome::PassDue { .. })
}

/// Makes a pass, and then stores that batch.
fn collect_and_store<O: Outputs, D: Depot>(
    plant: &mut Plant<O, D>,
    v: u32,
    trace: &mut Trace,
) -> Result<(), EngineFault>
    requires joint { Joint (plant_told O.told D.told plant.old) }
    requires stream { GivesStream (plant_told O.told D.told plant.old) v }
    requires batch { has_batch (plant_told O.told D.told plant.old) v ≡ true }
    ensures joint { Joint (plant_told O.told D.told plant.new) }
    ensures lowers { (ts : List Trigger) → Lowers ts (plant_told O.told D.told plant.old) trace.old
        result (plant_told O.told D.told plant.new) trace.new }
{
    flushes_lower_the_total();
    match play_one(plant, Act::Pass, trace) {
        Ok(_) => (),
        Err(fault) => return Err(fault),
    }
    match play_one(plant, Act::Flush { v, count: 64 }, trace) {
        Ok(_) => Ok(()),
        Err(fault) => Err(fault),
    }
}
