ghost use Rattle.std.specs.Prelude.{◌≡◌, All, IfErr, IfOk};
ghost use Rattle.std.specs.Arc.{arc_value};
ghost use Rattle.ss_engine.specs.Applies.{MayApply};
ghost use Rattle.ss_engine.specs.Joint.{Joint};
ghost use Rattle.ss_engine.specs.Plays.{acts_of};
ghost use Rattle.ss_engine.specs.Told.{plant_told, state_of};
ghost use Rattle.ss_outside.specs.Depot.{no_contents};
ghost use Rattle.ss_play.specs.Ending.{Ends};
ghost use Rattle.ss_play.specs.Playing.{EndsPlaying, Tells};
ghost use Rattle.ss_vault.specs.Calls.{HaveNoBytes};

use crate::fault::PlayFault;
use crate::reporting::{marks_of, report_of};
use ss_engine::{Plant, Trace, play};
use ss_fail::Act;
use ss_outside::{Depot, Outputs};
use ss_plan::Plan;
use ss_vault::plan_facts;
use std::alloc::Global;
use std::sync::Arc;

/// What is told of a job when all acts are made.
#[derive(Drop)]
pub struct Report {
    /// A line for each act, and then the state that they left.
    pub text: Vec<u8>,
    /// Of each vertex, below which element the list of a source isn't needed any more.
    pub marks: Vec<u64>,
}

/// What a job that was played leaves.
#[derive(Drop)]
pub struct Played<O, D> {
    /// The report, where all acts were made.
    pub answer: Result<Report, PlayFault>,
    pub outputs: O,
    pub depot: D,
}

/// Starts the job of a plan over a depot that holds nothing and outputs with no bytes, and makes the acts one behind
/// the other.
pub fn play_acts<O: Outputs, D: Depot>(
    alloc: Global,
    plan: Arc<Plan>,
    acts: &[Act],
    outputs: O,
    depot: D,
) -> Played<O, D>
    requires depot { (D.told depot).contents ≡ no_contents }
    requires outputs { HaveNoBytes (O.told outputs) }
    requires acts { All (MayApply (arc_value plan)) acts.now }
    ensures { EndsPlaying (arc_value plan) acts.now
        (record { outputs = O.told outputs; depot = D.told depot }) result.answer
        (record { outputs = O.told result.outputs; depot = D.told result.depot }) }
{
    match Plant::start(alloc, plan, depot, outputs) {
        Ok(mut plant) => {
            let answer = play_on(alloc, &mut plant, acts);
            let (_plan, depot, outputs) = plant.into_parts();
            Played {
                answer,
                outputs,
                depot,
            }
        }
        Err(refused) => Played {
            answer: Err(PlayFault::of_vault(refused.fault)),
            outputs: refused.outputs,
            depot: refused.depot,
        },
    }
}

/// Makes the acts on a job one behind the other, and tells of them.
fn play_on<O: Outputs, D: Depot>(
    alloc: Global,
    plant: &mut Plant<O, D>,
    acts: &[Act],
) -> Result<Report, PlayFault>
    requires joint { Joint (plant_told O.told D.told plant.old) }
    requires going { (plant_told O.told D.told plant.old).vault.halted ≡ None }
    requires acts { All (MayApply (plant_told O.told D.told plant.old).plan) acts.now }
    ensures joint { Joint (plant_told O.told D.told plant.new) }
    ensures ends { Ends (plant_told O.told D.told plant.old) acts.now result (plant_told O.told D.told plant.new) }
{
    plan_facts(plant.plan());
    let mut trace = Trace::new(alloc);
    match play(plant, acts, &mut trace) {
        Ok(()) => tell(alloc, plant, &trace),
        Err(fault) => Err(PlayFault::of_engine(fault)),
    }
}

/// Tells of these acts, which were made on the job.
fn tell<O: Outputs, D: Depot>(
    alloc: Global,
    plant: &Plant<O, D>,
    trace: &Trace,
) -> Result<Report, PlayFault>
    requires joint { Joint (plant_told O.told D.told plant.now) }
    requires acts { All (MayApply (plant_told O.told D.told plant.now).plan) (acts_of trace.now.made) }
    ensures tells { IfOk result (Tells (plant_told O.told D.told plant.now).plan trace.now.made
        (state_of (plant_told O.told D.told plant.now))) }
    ensures memory { IfErr result (λ fault. fault ≡ PlayFault.Memory) }
{
    let text = report_of(alloc, plant, trace)?;
    let marks = marks_of(alloc, plant)?;
    Ok(Report { text, marks })
}
