ghost use Rattle.std.specs.Prelude.{◌≡◌, ◌<◌, ◌++◌, IfOk, OnOk, length};
ghost use Rattle.ss_engine.specs.Joint.{Joint};
ghost use Rattle.ss_engine.specs.Told.{plant_told};
ghost use Rattle.ss_frames.specs.Plans.{plan_numbers};
ghost use Rattle.ss_run.specs.Summary.{summary_line, summary_text};
ghost use Rattle.ss_serial.specs.Ends.{AllPut};

use ss_engine::{Plant, is_sink, vertex_count};
use ss_outside::{Depot, Outputs};
use ss_report::{StateRow, state_line};
use ss_vault::plan_facts;
use std::alloc::{AllocError, Global};

/// The summary of a job at its end: a line for each sink, in order, and the last line.
pub(crate) fn summary_of<O: Outputs, D: Depot>(
    alloc: Global,
    plant: &Plant<O, D>,
) -> Result<Vec<u8>, AllocError>
    requires joint { Joint (plant_told O.told D.told plant.now) }
    requires put { AllPut (plant_told O.told D.told plant.now) }
    ensures { IfOk result (λ text. text.items ≡ summary_text (plant_told O.told D.told plant.now).plan) }
{
    let plan = plant.plan();
    let mut text = Vec::new(alloc);
    for k in 0..vertex_count(plan) {
        put_summary(plant, k, &mut text)?;
    }
    state_line(&StateRow::Done, plan.job().roles(), &mut text)?;
    Ok(text)
}

/// Appends the line of vertex `k`, if it is a sink.
fn put_summary<O: Outputs, D: Depot>(
    plant: &Plant<O, D>,
    k: u32,
    text: &mut Vec<u8>,
) -> Result<(), AllocError>
    requires joint { Joint (plant_told O.told D.told plant.now) }
    requires put { AllPut (plant_told O.told D.told plant.now) }
    requires vertex { k < length (plan_numbers (plant_told O.told D.told plant.now).plan).vertices }
    ensures { OnOk result (text.new.items
        ≡ text.old.items ++ summary_line (plant_told O.told D.told plant.now).plan k) }
{
    let plan = plant.plan();
    // That the lengths of streams are those of the plan's numbers.
    plan_facts(plan);
    if !is_sink(plan, k) {
        return Ok(());
    }
    let row = StateRow::Summary {
        k,
        taken: plant.vault().taken(k),
    };
    match state_line(&row, plan.job().roles(), text) {
        Ok(()) => Ok(()),
        Err(error) => Err(error),
    }
}
