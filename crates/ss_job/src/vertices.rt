//! What the table of a vertex says, op by op.
ghost use Rattle.std.specs.Prelude.{◌≡◌, ◌+◌, ◌<◌, ◌≤◌, true, Ok, IfErr, OnOk, length};
ghost use Rattle.toml.specs.View.{view, table_view, array_view};
ghost use Rattle.ss_job.specs.Answers.{result_map, IsFaultOfReading, AnswersReading};
ghost use Rattle.ss_job.specs.Faults.{item_count};
ghost use Rattle.ss_job.specs.Fields.{optional_number};
ghost use Rattle.ss_job.specs.OwnedEntry.{entry_text};
ghost use Rattle.ss_job.specs.Vertices.{op_of, input_at, numbers_of, inputs_of, source_file_of, sink_file_of};
ghost use Rattle.ss_job.specs.Vertices.{policy_of, select_of, window_of, operator_of, source_of, select_entry};
ghost use Rattle.ss_job.specs.Vertices.{window_entry, session_of, session_entry, plain_entry, sink_of, entry_of};
ghost use Rattle.ss_job.specs.Vertices.{draft_after};
ghost use Rattle.ss_job.specs.Wrong.{has_input_count};
ghost use Rattle.ss_job.specs.declared.field_name.FieldName.TheVariants.{Replicas};

use crate::document::{has_only, needed_text, needed_texts};
use crate::draft::Draft;
use crate::entry::Entry;
use crate::fault::{JobWhy, Refusal};
use crate::field_name::FieldName;
use crate::fields::{
    agg_of, late_of, needed_number, optional_number, replay_of, row_number_of, size_of, test_of,
    value_of,
};
use crate::inputs::Inputs;
use crate::legal_names::is_file_name;
use crate::op::Op;
use crate::policy::Policy;
use crate::vertex::Vertex;
use ss_expr::Spec;
use std::alloc::Global;
use toml::value::Array;
use toml::{Table, Value};

/// The longest hop of a window.
const MOST_HOP: u64 = 1 << 40;

/// The longest gap of a session.
const MOST_GAP: u64 = 1 << 40;

/// The most elements between two snapshots.
const MOST_EVERY: u64 = 131072;

/// The most replicas of a vertex.
const MOST_REPLICAS: u64 = 4;

/// Adds the vertex of a table to those before it. After a refusal the draft is of no further use.
#[tactic(auto, unfolding(crate::specs::Vertices::draft_after))]
pub(crate) fn add_vertex(alloc: Global, draft: &mut Draft, table: &Table) -> Result<(), Refusal>
    requires { length draft.old.nodes < 32 }
    ensures added { OnOk result (draft_after draft.old (table_view table.now) ≡ Ok draft.new) }
    ensures refused { IfErr result (λ e. IsFaultOfReading e (draft_after draft.old (table_view table.now))) }
    ensures count { OnOk result (length draft.new.nodes ≡ length draft.old.nodes + 1) }
{
    let name = draft.name_of(table)?;
    let op = op_of(table)?;
    if !has_only(table, op.keys()) {
        return Err(Refusal::Why(JobWhy::UnknownField));
    }
    let entry = entry_of(alloc, draft, op, table)?;
    draft.add(alloc, name, op, entry)?;
    Ok(())
}

/// The op of a vertex.
#[tactic(auto, unfolding(crate::specs::Vertices::op_of))]
fn op_of(table: &Table) -> Result<Op, JobWhy>
    ensures { result ≡ op_of (table_view table.now) }
{
    let word = needed_text(table, FieldName::Op)?;
    Op::named(word).ok_or(JobWhy::BadOp)
}

/// What the fields of a vertex with this op say.
fn entry_of(alloc: Global, draft: &Draft, op: Op, table: &Table) -> Result<Entry, Refusal>
    ensures { AnswersReading entry_text result (entry_of draft.now op (table_view table.now)) }
{
    match op {
        Op::Source => source_of(alloc, table),
        Op::Select => select_entry(alloc, draft, table),
        Op::Union => plain_entry(draft, op, Spec::Union, table),
        Op::Window => window_entry(draft, table),
        Op::Join => plain_entry(draft, op, Spec::Join, table),
        Op::Session => session_entry(draft, table),
        Op::Except => plain_entry(draft, op, Spec::Except, table),
        Op::Sink => sink_of(alloc, draft, table),
    }
}

#[tactic(auto, unfolding(crate::specs::Vertices::source_of))]
fn source_of(alloc: Global, table: &Table) -> Result<Entry, Refusal>
    ensures { AnswersReading entry_text result (source_of (table_view table.now)) }
{
    let file = source_file_of(table)?;
    let late = late_of(table)?;
    let replicas = replicas_of(table)?;
    let file = String::from_str(alloc, file)?;
    Ok(Entry {
        inputs: Inputs::new(),
        replicas,
        vertex: Vertex::Source { file, late },
    })
}

#[tactic(auto, unfolding(crate::specs::Vertices::select_entry))]
fn select_entry(alloc: Global, draft: &Draft, table: &Table) -> Result<Entry, Refusal>
    ensures { AnswersReading entry_text result (select_entry draft.now (table_view table.now)) }
{
    let inputs = inputs_of(draft, Op::Select, table)?;
    let spec = select_of(alloc, table)?;
    operator_of(inputs, spec, table)
}

#[tactic(auto, unfolding(crate::specs::Vertices::window_entry))]
fn window_entry(draft: &Draft, table: &Table) -> Result<Entry, Refusal>
    ensures { AnswersReading entry_text result (window_entry draft.now (table_view table.now)) }
{
    let inputs = inputs_of(draft, Op::Window, table)?;
    let spec = window_of(table)?;
    operator_of(inputs, spec, table)
}

#[tactic(auto, unfolding(crate::specs::Vertices::session_entry))]
fn session_entry(draft: &Draft, table: &Table) -> Result<Entry, Refusal>
    ensures { AnswersReading entry_text result (session_entry draft.now (table_view table.now)) }
{
    let inputs = inputs_of(draft, Op::Session, table)?;
    let spec = session_of(table)?;
    operator_of(inputs, spec, table)
}

/// An operator of which the op says all that it computes.
#[tactic(auto, unfolding(crate::specs::Vertices::plain_entry))]
fn plain_entry(draft: &Draft, op: Op, spec: Spec, table: &Table) -> Result<Entry, Refusal>
    ensures { AnswersReading entry_text result (plain_entry draft.now op spec (table_view table.now)) }
{
    let inputs = inputs_of(draft, op, table)?;
    operator_of(inputs, spec, table)
}

#[tactic(auto, unfolding(crate::specs::Vertices::sink_of))]
fn sink_of(alloc: Global, draft: &Draft, table: &Table) -> Result<Entry, Refusal>
    ensures { AnswersReading entry_text result (sink_of draft.now (table_view table.now)) }
{
    let inputs = inputs_of(draft, Op::Sink, table)?;
    let file = sink_file_of(draft, table)?;
    let file = String::from_str(alloc, file)?;
    Ok(Entry {
        inputs,
        replicas: 1,
        vertex: Vertex::Sink { file },
    })
}

/// An operator with these inputs that computes this.
#[tactic(auto, unfolding(crate::specs::Vertices::operator_of))]
fn operator_of(inputs: Inputs, spec: Spec, table: &Table) -> Result<Entry, Refusal>
    ensures { AnswersReading entry_text result (operator_of inputs spec (table_view table.now)) }
{
    let policy = policy_of(table)?;
    Ok(Entry {
        inputs,
        replicas: policy.replicas,
        vertex: Vertex::Inner { spec, policy },
    })
}

#[tactic(auto, unfolding(crate::specs::Vertices::policy_of))]
fn policy_of(table: &Table) -> Result<Policy, JobWhy>
    ensures { result ≡ policy_of (table_view table.now) }
{
    let replay = replay_of(table)?;
    let every = optional_number(table, FieldName::Every, 64, 1, MOST_EVERY)?;
    let replicas = replicas_of(table)?;
    Ok(Policy {
        replay,
        every,
        replicas,
    })
}

fn replicas_of(table: &Table) -> Result<u32, JobWhy>
    ensures { result ≡ optional_number Replicas 1 1 4 (table_view table.now) }
{
    let replicas = optional_number(table, FieldName::Replicas, 1, 1, MOST_REPLICAS)?;
    Ok(replicas as u32)
}

#[tactic(auto, unfolding(crate::specs::Vertices::select_of))]
fn select_of(alloc: Global, table: &Table) -> Result<Spec, Refusal>
    ensures { AnswersReading (λ spec. spec) result (select_of (table_view table.now)) }
{
    let test = test_of(alloc, table)?;
    let a = row_number_of(alloc, table, FieldName::A, "a")?;
    let b = row_number_of(alloc, table, FieldName::B, "b")?;
    let c = row_number_of(alloc, table, FieldName::C, "c")?;
    let d = row_number_of(alloc, table, FieldName::D, "d")?;
    Ok(Spec::Select { test, a, b, c, d })
}

#[tactic(auto, unfolding(crate::specs::Vertices::window_of))]
fn window_of(table: &Table) -> Result<Spec, JobWhy>
    ensures { result ≡ window_of (table_view table.now) }
{
    let hop = needed_number(table, FieldName::Hop, 1, MOST_HOP)?;
    let size = size_of(table, hop)?;
    let agg = agg_of(table)?;
    let of = value_of(table)?;
    Ok(Spec::Window { size, hop, agg, of })
}

#[tactic(auto, unfolding(crate::specs::Vertices::session_of))]
fn session_of(table: &Table) -> Result<Spec, JobWhy>
    ensures { result ≡ session_of (table_view table.now) }
{
    let gap = needed_number(table, FieldName::Gap, 1, MOST_GAP)?;
    let agg = agg_of(table)?;
    let of = value_of(table)?;
    Ok(Spec::Session { gap, agg, of })
}

#[tactic(auto, unfolding(crate::specs::Vertices::source_file_of))]
fn source_file_of(table: &Table) -> Result<&str, JobWhy>
    ensures { result_map (λ file. file.now) result ≡ source_file_of (table_view table.now) }
{
    let file = needed_text(table, FieldName::File)?;
    if !is_file_name(file) {
        return Err(JobWhy::BadName);
    }
    if file == "-" {
        return Err(JobWhy::BadName);
    }
    Ok(file)
}

#[tactic(auto, unfolding(crate::specs::Vertices::sink_file_of))]
fn sink_file_of<'a>(draft: &Draft, table: &'a Table) -> Result<&'a str, JobWhy>
    ensures { result_map (λ file. file.now) result ≡ sink_file_of draft.now.vertices (table_view table.now) }
{
    let file = needed_text(table, FieldName::File)?;
    if !is_file_name(file) {
        return Err(JobWhy::BadName);
    }
    if draft.is_written(file) {
        return Err(JobWhy::RepeatedFile);
    }
    Ok(file)
}

#[tactic(auto, unfolding(crate::specs::Vertices::inputs_of))]
fn inputs_of(draft: &Draft, op: Op, table: &Table) -> Result<Inputs, JobWhy>
    ensures { result ≡ inputs_of draft.now op (table_view table.now) }
{
    let array = needed_texts(table, FieldName::Inputs)?;
    if !takes(op, array) {
        return Err(JobWhy::WrongInputCount);
    }
    numbers_of(draft, array)
}

/// Whether a vertex with this op may have so many inputs as the array has items.
fn takes(op: Op, array: &Array) -> bool
    ensures count { result ≡ has_input_count op (item_count (array_view array.now)) }
    ensures few { result ≡ true → item_count (array_view array.now) ≤ 8 }
{
    op.takes(array.len())
}

fn numbers_of(draft: &Draft, array: &Array) -> Result<Inputs, JobWhy>
    requires { item_count (array_view array.now) ≤ 8 }
    ensures { result ≡ numbers_of draft.now (array_view array.now) }
{
    let mut inputs = Inputs::new();
    for value in array {
        let number = input_at(draft, value)?;
        inputs.push(number);
    }
    Ok(inputs)
}

#[tactic(auto, unfolding(crate::specs::Vertices::input_at))]
fn input_at(draft: &Draft, value: &Value) -> Result<u32, JobWhy>
    ensures { result ≡ input_at draft.now (view value.now) }
{
    match value.as_str() {
        Some(name) => draft.input_of(name),
        None => Err(JobWhy::WrongKind {
            field: FieldName::Inputs,
        }),
    }
}
