ghost use Rattle.std.specs.Prelude.{◌≡◌, [], All, IfErr, IfOk, true};
ghost use Rattle.std.specs.Arc.{arc_value};
ghost use Rattle.std.specs.List.{AllByRecursion};
ghost use Rattle.ss_engine.specs.Joint.{Joint};
ghost use Rattle.ss_engine.specs.Plays.{acts_of};
ghost use Rattle.ss_engine.specs.Told.{plant_told, state_of};
ghost use Rattle.ss_frames.specs.Plans.{plan_numbers};
ghost use Rattle.ss_outside.specs.Depot.{no_contents};
ghost use Rattle.ss_run.specs.Ending.{Ends};
ghost use Rattle.ss_run.specs.Running.{EndsRunning, TellsRun};
ghost use Rattle.ss_serial.specs.Drives.{CanFire};
ghost use Rattle.ss_serial.specs.Ends.{AllPut};
ghost use Rattle.ss_state.specs.Rule.{IsTrigger};
ghost use Rattle.ss_state.specs.Step.{MayAct};
ghost use Rattle.ss_vault.specs.Calls.{HaveNoBytes};

use crate::summary::summary_of;
use ss_engine::{Plant, Trace};
use ss_fail::Trigger;
use ss_frames::plans_have_numbers;
use ss_meaning::meaning_is_made_of_the_inputs;
use ss_outside::{Depot, Outputs};
use ss_plan::Plan;
use ss_play::{PlayFault, marks_of, plays_are_told, trace_of};
use ss_serial::finish;
use ss_vault::plan_facts;
use std::alloc::{AllocError, Global};
use std::sync::Arc;

/// What is told of a job that was brought to its end.
#[derive(Drop)]
pub struct Told {
    /// A line for each act, where they are wanted.
    pub trace: Vec<u8>,
    /// A line for each sink, and the last line.
    pub summary: Vec<u8>,
    /// Of each vertex, below which element the list of a source isn't needed any more.
    pub marks: Vec<u64>,
}

/// What a job that was run leaves.
#[derive(Drop)]
pub struct Ran<O, D> {
    /// What is told, where every sink has put its whole stream.
    pub answer: Result<Told, PlayFault>,
    pub outputs: O,
    pub depot: D,
}

/// Starts the job of a plan over a depot that holds nothing and outputs with no bytes, and brings it to its end,
/// whatever failures are listed. `wants_trace` says whether its acts are to be told.
pub fn run_job<O: Outputs, D: Depot>(
    alloc: Global,
    plan: Arc<Plan>,
    triggers: &[Trigger],
    wants_trace: bool,
    outputs: O,
    depot: D,
) -> Ran<O, D>
    requires depot { (D.told depot).contents ≡ no_contents }
    requires outputs { HaveNoBytes (O.told outputs) }
    requires triggers { AllByRecursion (IsTrigger (plan_numbers (arc_value plan))) triggers.now }
    ensures { EndsRunning (arc_value plan) triggers.now wants_trace
        (record { outputs = O.told outputs; depot = D.told depot }) result.answer
        (record { outputs = O.told result.outputs; depot = D.told result.depot }) }
{
    plays_are_told();
    plans_have_numbers();
    meaning_is_made_of_the_inputs();
    // What every plan keeps.
    plan_facts(&plan);
    match Plant::start(alloc, plan, depot, outputs) {
        Ok(mut plant) => {
            let answer = run_on(alloc, &mut plant, triggers, wants_trace);
            let (_plan, depot, outputs) = plant.into_parts();
            Ran {
                answer,
                outputs,
                depot,
            }
        }
        Err(refused) => Ran {
            answer: Err(PlayFault::of_vault(refused.fault)),
            outputs: refused.outputs,
            depot: refused.depot,
        },
    }
}

/// Brings a job to its end, and tells of it.
fn run_on<O: Outputs, D: Depot>(
    alloc: Global,
    plant: &mut Plant<O, D>,
    triggers: &[Trigger],
    wants_trace: bool,
) -> Result<Told, PlayFault>
    requires joint { Joint (plant_told O.told D.told plant.old) }
    requires triggers { CanFire (plant_told O.told D.told plant.old) triggers.now }
    ensures joint { Joint (plant_told O.told D.told plant.new) }
    ensures ends { Ends (plant_told O.told D.told plant.old) triggers.now wants_trace
        result (plant_told O.told D.told plant.new) }
{
    let mut trace = new_trace(alloc, wants_trace);
    match finish(plant, triggers, &mut trace) {
        Ok(()) => match tell(alloc, plant, &trace) {
            Ok(told) => Ok(told),
            Err(_) => Err(PlayFault::Memory),
        },
        Err(fault) => Err(PlayFault::of_engine(fault)),
    }
}

/// A trace that keeps the acts to come only where they are wanted, so that no run holds what nobody will read.
fn new_trace(alloc: Global, wants_trace: bool) -> Trace
    ensures { result ≡ record { keeps = wants_trace; made = [] } }
{
    if wants_trace {
        Trace::new(alloc)
    } else {
        Trace::without_acts(alloc)
    }
}

/// Tells of a job at its end: a line for each act that the trace keeps, and what its sinks have put.
fn tell<O: Outputs, D: Depot>(
    alloc: Global,
    plant: &Plant<O, D>,
    trace: &Trace,
) -> Result<Told, AllocError>
    requires joint { Joint (plant_told O.told D.told plant.now) }
    requires put { AllPut (plant_told O.told D.told plant.now) }
    requires acts { All (MayAct (plan_numbers (plant_told O.told D.told plant.now).plan)) (acts_of trace.now.made) }
    ensures { IfOk result (TellsRun (plant_told O.told D.told plant.now).plan true trace.now.made
        (state_of (plant_told O.told D.told plant.now))) }
{
    let lines = trace_of(alloc, plant.plan(), trace)?;
    let summary = summary_of(alloc, plant)?;
    let marks = marks_of(alloc, plant)?;
    Ok(Told {
        trace: lines,
        summary,
        marks,
    })
}
