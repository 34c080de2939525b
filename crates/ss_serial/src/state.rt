ghost use Rattle.std.specs.Prelude.{◌≡◌, ◌<◌};
ghost use Rattle.ss_engine.specs.Joint.{Joint};
ghost use Rattle.ss_engine.specs.Told.{plant_told, state_of};
ghost use Rattle.ss_frames.specs.Plans.{plan_numbers};
ghost use Rattle.ss_rounds.specs.Whole as whole;
ghost use Rattle.ss_serial.specs.Stored as stored;
ghost use Rattle.ss_serial.specs.Stored.{GivesStream, TakesStream, vertex_count};
ghost use Rattle.ss_state.specs.Numbers.{IsSink, input, vertex};
ghost use Rattle.ss_state.specs.Rule.{last_snap};
ghost use Rattle.ss_state.specs.State.{durable_at};
ghost use Rattle.ss_vertex.specs.Inst.{inst_numbers};
ghost use Rattle.ss_vertex.specs.Standing.{InstStands};

use ss_engine::Plant;
use ss_fail::Act;
use ss_manager::{is_numbered, is_snap_due, next_act};
use ss_outside::{Depot, Outputs};
use ss_plan::Plan;
use ss_tail::Tail;
use ss_vault::plan_facts;
use ss_vertex::Inst;

/// How many elements one flush stores at most.
const FULL_BATCH: u64 = 64;

/// What the first replica of stream `v` does next.
pub(crate) fn first_act<O: Outputs, D: Depot>(plant: &Plant<O, D>, v: u32) -> Act
    requires joint { Joint (plant_told O.told D.told plant.now) }
    requires stream { GivesStream (plant_told O.told D.told plant.now) v }
    ensures { result ≡ stored.next_of (plant_told O.told D.told plant.now) v }
{
    next_act(plant.plan(), v, 0, plant.inst(v, 0), newest(plant, v))
}

/// Whether the first replica of stream `v` has nothing to do, or nothing that need be done before a full batch is
/// stored.
pub(crate) fn is_over<O: Outputs, D: Depot>(plant: &Plant<O, D>, v: u32) -> bool
    requires joint { Joint (plant_told O.told D.told plant.now) }
    requires stream { GivesStream (plant_told O.told D.told plant.now) v }
    ensures { result ≡ stored.is_over (plant_told O.told D.told plant.now) v }
{
    let tail = plant.tail(v);
    if has_full_batch(tail) {
        return true;
    }
    let plan = plant.plan();
    let inst = plant.inst(v, 0);
    if !is_at_end(plan, inst) {
        return false;
    }
    let next = next_number(plan, inst);
    if next <= plant.vault().dur(v) {
        return true;
    }
    next <= tail.end() && !is_snap_due(plan, v, inst, newest(plant, v))
}

/// Whether elements of stream `v` are to be stored.
pub(crate) fn has_batch<O: Outputs, D: Depot>(plant: &Plant<O, D>, v: u32) -> bool
    requires joint { Joint (plant_told O.told D.told plant.now) }
    requires stream { GivesStream (plant_told O.told D.told plant.now) v }
    ensures { result ≡ stored.has_batch (plant_told O.told D.told plant.now) v }
{
    let tail = plant.tail(v);
    tail.seen().max(tail.from()) < tail.end()
}

/// Whether sink `k` hasn't put all that is stored of its stream.
pub(crate) fn has_line<O: Outputs, D: Depot>(plant: &Plant<O, D>, k: u32) -> bool
    requires joint { Joint (plant_told O.told D.told plant.now) }
    requires sink { TakesStream (plant_told O.told D.told plant.now) k }
    ensures { result ≡ stored.has_line (plant_told O.told D.told plant.now) k }
{
    let vault = plant.vault();
    vault.taken(k) < vault.dur(stream_put(plant.plan(), k))
}

/// The stream that sink `k` puts.
fn stream_put(plan: &Plan, k: u32) -> u32
    requires { IsSink (plan_numbers plan.now) k }
    ensures { result ≡ input (vertex (plan_numbers plan.now) k) 0 }
{
    plan_facts(plan);
    plan.job().graph().node(k).inputs[0]
}

/// The newest stored snapshot of vertex `v`; 0 where there is none.
fn newest<O: Outputs, D: Depot>(plant: &Plant<O, D>, v: u32) -> u64
    requires joint { Joint (plant_told O.told D.told plant.now) }
    requires vertex { v < vertex_count (plant_told O.told D.told plant.now) }
    ensures { result ≡ last_snap (durable_at (state_of (plant_told O.told D.told plant.now)) v).snaps }
{
    match plant.vault().snaps(v).last() {
        Some(snap) => snap.n,
        None => 0,
    }
}

/// Whether as many elements are to be stored as one flush stores.
fn has_full_batch(tail: &Tail) -> bool
    ensures { result ≡ whole.has_full_batch tail.now.numbers }
{
    let from = tail.seen().max(tail.from());
    let end = tail.end();
    from <= end && FULL_BATCH <= end - from
}

/// Whether a replica has accepted everything and written all that it made of it.
fn is_at_end(plan: &Plan, inst: &Inst) -> bool
    requires { InstStands plan.now inst.now }
    ensures { result ≡ whole.is_at_end (vertex (plan_numbers plan.now) inst.now.v) (inst_numbers inst.now) }
{
    plan.max_elements();
    is_numbered(plan, inst);
    if !inst.is_up() {
        return false;
    }
    if inst.left() > 0 {
        return false;
    }
    inst.wants().is_none()
}

/// The number of the next element that a replica writes; 0 where it is down.
fn next_number(plan: &Plan, inst: &Inst) -> u64
    requires { InstStands plan.now inst.now }
    ensures { result ≡ whole.next_of (vertex (plan_numbers plan.now) inst.now.v) (inst_numbers inst.now) }
{
    is_numbered(plan, inst);
    inst.next()
}
