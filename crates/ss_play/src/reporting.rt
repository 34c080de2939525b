//! The report on acts that were made, and on the state that they left.
ghost use Rattle.std.specs.Prelude.{◌≡◌, ◌<◌, ◌++◌, All, IfOk, OnOk, false, length, map};
ghost use Rattle.ss_acts.specs.Parts.{IsReplicaOf};
ghost use Rattle.ss_engine.specs.Applies.{MayApply};
ghost use Rattle.ss_engine.specs.Joint.{Joint};
ghost use Rattle.ss_engine.specs.Plays.{acts_of};
ghost use Rattle.ss_engine.specs.Told.{plant_told, state_of};
ghost use Rattle.ss_frames.specs.Plans.{plan_numbers};
ghost use Rattle.ss_play.specs.Lines.{inner_text, source_text};
ghost use Rattle.ss_play.specs.Playing.{AreMarks};
ghost use Rattle.ss_play.specs.Report.{lines_below, replica_line, replicas_text, report_text, sink_line, state_lines};
ghost use Rattle.ss_play.specs.Report.{trace_lines};
ghost use Rattle.ss_play.specs.Roles.{IsRoleOf, IsVertexOf};
ghost use Rattle.ss_report.specs.ReadAgain.{whole_trace};
ghost use Rattle.ss_report.specs.StateText.{journal_text};
ghost use Rattle.ss_report.specs.TraceText.{IsActOf};
ghost use Rattle.ss_state.specs.Numbers.{vertex};
ghost use Rattle.ss_state.specs.Step.{MayAct};
ghost use Rattle.ss_vault.specs.Readers.{HasRow};
ghost use Rattle.ss_vault.specs.Sound.{Sound};
ghost use Rattle.ss_vault.specs.Told.{durable_of, numbers_of, vault_told};
ghost use Rattle.ss_vertex.specs.Inst.{inst_numbers};
ghost use Rattle.ss_water.specs.Graph.{is_sink};

use crate::schedules::plans_have_roles;
use ss_engine::{Plant, Trace};
use ss_fail::{Act, Outcome, Role};
use ss_outside::{Depot, Outputs};
use ss_plan::Plan;
use ss_report::{Memory, StateRow, state_line, trace_line};
use ss_tail::Tail;
use ss_vault::Vault;
use ss_vertex::{Inst, instances_are_numbered};
use ss_water::Kind;
use std::alloc::Global;

/// The report on a job on which these acts were made.
pub(crate) fn report_of<O: Outputs, D: Depot>(
    alloc: Global,
    plant: &Plant<O, D>,
    trace: &Trace,
) -> Result<Vec<u8>, Memory>
    requires joint { Joint (plant_told O.told D.told plant.now) }
    requires acts { All (MayApply (plant_told O.told D.told plant.now).plan) (acts_of trace.now.made) }
    ensures { IfOk result (λ text. text.items ≡ report_text (plant_told O.told D.told plant.now).plan trace.now.made
        (state_of (plant_told O.told D.told plant.now))) }
{
    let plan = plant.plan();
    let mut text = trace_of(alloc, plan, trace)?;
    put_vertices(plant, &mut text)?;
    put_journal(plant.vault(), plan.job().roles(), &mut text)?;
    Ok(text)
}

/// The lines of the acts that a trace keeps, which were made on a job of this plan, each with what came of it.
pub fn trace_of(alloc: Global, plan: &Plan, trace: &Trace) -> Result<Vec<u8>, Memory>
    requires { All (MayAct (plan_numbers plan.now)) (acts_of trace.now.made) }
    ensures { IfOk result (λ text. text.items ≡ trace_lines plan.now.job.roles trace.now.made) }
{
    let _count = vertex_count(plan);
    let mut text = Vec::new(alloc);
    put_trace(trace.pairs(), plan.job().roles(), &mut text)?;
    Ok(text)
}

/// The mark of each vertex of a job.
pub fn marks_of<O: Outputs, D: Depot>(
    alloc: Global,
    plant: &Plant<O, D>,
) -> Result<Vec<u64>, Memory>
    requires { Joint (plant_told O.told D.told plant.now) }
    ensures { IfOk result (λ marks. AreMarks (plant_told O.told D.told plant.now).plan
        (state_of (plant_told O.told D.told plant.now)) marks.items) }
{
    list_marks(alloc, plant)
}

/// The marks, as the rows of the ledger have them.
fn list_marks<O: Outputs, D: Depot>(alloc: Global, plant: &Plant<O, D>) -> Result<Vec<u64>, Memory>
    requires { Joint (plant_told O.told D.told plant.now) }
    ensures { IfOk result (λ marks. marks.items
        ≡ map (λ row. row.mark) (state_of (plant_told O.told D.told plant.now)).vault.ledger.rows) }
{
    let mut marks = Vec::new(alloc);
    for v in 0..vertex_count(plant.plan()) {
        marks.push(plant.vault().mark(v))?;
    }
    Ok(marks)
}

/// Appends the lines of acts with what came of each.
fn put_trace(pairs: &[(Act, Outcome)], roles: &[Role], out: &mut Vec<u8>) -> Result<(), Memory>
    requires { All (λ pair. IsActOf roles.now pair.0) pairs.now }
    ensures { OnOk result (out.new.items ≡ out.old.items ++ whole_trace roles.now pairs.now) }
{
    for (act, outcome) in pairs {
        trace_line(act, outcome, roles, out)?;
    }
    Ok(())
}

/// Appends the lines of all vertices.
fn put_vertices<O: Outputs, D: Depot>(plant: &Plant<O, D>, out: &mut Vec<u8>) -> Result<(), Memory>
    requires { Joint (plant_told O.told D.told plant.now) }
    ensures { OnOk result (out.new.items ≡ out.old.items ++ lines_below (plant_told O.told D.told plant.now).plan
        (state_of (plant_told O.told D.told plant.now))
        (length (plan_numbers (plant_told O.told D.told plant.now).plan).vertices)) }
{
    for v in 0..vertex_count(plant.plan()) {
        put_vertex(plant, v, out)?;
    }
    Ok(())
}

/// Appends the lines of vertex `v`.
fn put_vertex<O: Outputs, D: Depot>(
    plant: &Plant<O, D>,
    v: u32,
    out: &mut Vec<u8>,
) -> Result<(), Memory>
    requires joint { Joint (plant_told O.told D.told plant.now) }
    requires vertex { IsVertexOf (plant_told O.told D.told plant.now).plan v }
    ensures { OnOk result (out.new.items ≡ out.old.items ++ state_lines (plant_told O.told D.told plant.now).plan
        (state_of (plant_told O.told D.told plant.now)) v) }
{
    let plan = plant.plan();
    match role_of(plan, v).kind {
        Kind::Source => {
            put_source(plan, plant.tail(v), plant.vault(), v, out)?;
            put_replicas(plant, v, out)
        }
        Kind::Inner => {
            put_inner(plan, plant.tail(v), plant.vault(), v, out)?;
            put_replicas(plant, v, out)
        }
        Kind::Sink => put_sink(plan, plant.vault(), v, out),
    }
}

/// Appends the line of source `v`.
fn put_source<O: Outputs, D: Depot>(
    plan: &Plan,
    tail: &Tail,
    vault: &Vault<O, D>,
    v: u32,
    out: &mut Vec<u8>,
) -> Result<(), Memory>
    requires named { v < length plan.now.job.roles }
    requires stored { HasRow (vault_told O.told D.told vault.now) v }
    ensures { OnOk result (out.new.items ≡ out.old.items
        ++ source_text plan.now.job.roles v (durable_of (vault_told O.told D.told vault.now) v) tail.now.numbers) }
{
    let row = StateRow::Source {
        v,
        base: vault.base(v),
        dur: vault.dur(v),
        from: tail.from(),
        end: tail.end(),
        torn: tail.torn(),
        mark: vault.mark(v),
    };
    state_line(&row, plan.job().roles(), out)
}

/// Appends the line of operator `v`.
fn put_inner<O: Outputs, D: Depot>(
    plan: &Plan,
    tail: &Tail,
    vault: &Vault<O, D>,
    v: u32,
    out: &mut Vec<u8>,
) -> Result<(), Memory>
    requires named { v < length plan.now.job.roles }
    requires stored { HasRow (vault_told O.told D.told vault.now) v }
    requires sound { Sound plan.now (vault_told O.told D.told vault.now) }
    ensures { OnOk result (out.new.items ≡ out.old.items
        ++ inner_text plan.now v (durable_of (vault_told O.told D.told vault.now) v) tail.now.numbers) }
{
    let row = StateRow::Inner {
        v,
        base: vault.base(v),
        dur: vault.dur(v),
        from: tail.from(),
        end: tail.end(),
        torn: tail.torn(),
        snaps: vault.snaps(v),
    };
    state_line(&row, plan.job().roles(), out)
}

/// Appends the line of sink `k`.
fn put_sink<O: Outputs, D: Depot>(
    plan: &Plan,
    vault: &Vault<O, D>,
    k: u32,
    out: &mut Vec<u8>,
) -> Result<(), Memory>
    requires named { k < length plan.now.job.roles }
    requires stored { HasRow (vault_told O.told D.told vault.now) k }
    ensures { OnOk result (out.new.items ≡ out.old.items
        ++ sink_line plan.now.job.roles k (durable_of (vault_told O.told D.told vault.now) k).taken) }
{
    let row = StateRow::Sink {
        k,
        taken: vault.taken(k),
    };
    state_line(&row, plan.job().roles(), out)
}

/// Appends the lines of the replicas of vertex `v`, which gives a stream.
fn put_replicas<O: Outputs, D: Depot>(
    plant: &Plant<O, D>,
    v: u32,
    out: &mut Vec<u8>,
) -> Result<(), Memory>
    requires joint { Joint (plant_told O.told D.told plant.now) }
    requires vertex { IsVertexOf (plant_told O.told D.told plant.now).plan v }
    requires stream { is_sink (vertex (plan_numbers (plant_told O.told D.told plant.now).plan) v).kind ≡ false }
    ensures { OnOk result (out.new.items ≡ out.old.items ++ replicas_text (plant_told O.told D.told plant.now).plan
        (state_of (plant_told O.told D.told plant.now)) v) }
{
    let plan = plant.plan();
    for r in 0..role_of(plan, v).replicas {
        put_replica(plan, plant.inst(v, r), v, r, out)?;
    }
    Ok(())
}

/// Appends the line of replica `r` of vertex `v`.
fn put_replica(plan: &Plan, inst: &Inst, v: u32, r: u32, out: &mut Vec<u8>) -> Result<(), Memory>
    requires named { v < length plan.now.job.roles }
    requires stands { IsReplicaOf plan.now v inst.now }
    ensures { OnOk result (out.new.items ≡ out.old.items
        ++ replica_line plan.now.job.roles (vertex (plan_numbers plan.now) v) v r (inst_numbers inst.now)) }
{
    let _most = plan.max_elements();
    instances_are_numbered();
    let roles = plan.job().roles();
    if inst.is_up() {
        let row = StateRow::Up {
            v,
            r,
            n: inst.n(),
            next: inst.next(),
            left: inst.left(),
        };
        state_line(&row, roles, out)
    } else {
        state_line(&StateRow::Down { v, r }, roles, out)
    }
}

/// Appends the line of the journal.
fn put_journal<O: Outputs, D: Depot>(
    vault: &Vault<O, D>,
    roles: &[Role],
    out: &mut Vec<u8>,
) -> Result<(), Memory>
    ensures { OnOk result (out.new.items ≡ out.old.items
        ++ journal_text (length (numbers_of (vault_told O.told D.told vault.now)).journal)
        (numbers_of (vault_told O.told D.told vault.now)).ledger.since) }
{
    let row = StateRow::Journal {
        entries: vault.entries(),
        since: vault.since(),
    };
    state_line(&row, roles, out)
}

/// How many vertices a plan has.
fn vertex_count(plan: &Plan) -> u32
    ensures named { result ≡ length plan.now.job.roles }
    ensures numbered { result ≡ length (plan_numbers plan.now).vertices }
{
    let _most = plan.max_elements();
    plans_have_roles();
    plan.job().graph().count()
}

/// The role of vertex `v`.
fn role_of(plan: &Plan, v: u32) -> Role
    requires { v < length plan.now.job.roles }
    ensures { IsRoleOf plan.now v result }
{
    let _most = plan.max_elements();
    plans_have_roles();
    plan.job().roles()[v as usize]
}
