//! The reader of job files.
ghost use Rattle.std.specs.Prelude.{◌≡◌, ◌+◌, ◌<◌, ◌≤◌, Ok, IfOk, IfErr, OnOk, List, ℕ, length, is_some, nat_lt};
ghost use Rattle.toml.specs.Data.{as_table};
ghost use Rattle.toml.specs.View.{view, table_view, array_view};
ghost use Rattle.ss_job.specs.Answers.{result_map, IsFaultOfDocument, AnswersDocument};
ghost use Rattle.ss_job.specs.Fault.{IsToldBy};
ghost use Rattle.ss_job.specs.Faults.{are_tables, item_count, fault_of_document};
ghost use Rattle.ss_job.specs.Format.{most_vertices};
ghost use Rattle.ss_job.specs.JobText.{JobText};
ghost use Rattle.ss_job.specs.Reading.{faulty, items_of, parts_of, draft_at, drafts_after, read_document};
ghost use Rattle.ss_job.specs.Says.{Says, Refuses};
ghost use Rattle.ss_job.specs.Vertices.{empty_draft};
ghost use Rattle.ss_job.specs.declared.fault.JobFault.{JobFault as FaultAt};
ghost use Rattle.ss_job.specs.declared.fault.JobsFault.TheVariants.{At};

use crate::document::{has_only, value_at};
use crate::draft::Draft;
use crate::fault::{JobFault, JobWhy, JobsFault, Refusal};
use crate::field_name::FieldName;
use crate::job::Job;
use crate::limits::{Limits, limits_of};
use crate::vertices::add_vertex;
use std::alloc::Global;
use toml::value::Array;
use toml::{Table, Value};

/// The most vertices of a job.
const MOST_VERTICES: usize = 32;

/// Reads the bytes of a job file. A byte order mark at the front is passed over.
pub fn read_job(alloc: Global, bytes: &[u8]) -> Result<Job, JobsFault>
    ensures job { IfOk result (Says bytes.now) }
    ensures refused { IfErr result (Refuses bytes.now) }
{
    match toml::table_from_slice(alloc, bytes) {
        Ok(document) => match read_document(alloc, &document) {
            Ok(job) => Ok(job),
            Err(fault) => Err(fault),
        },
        Err(error) => Err(fault_of(&error)),
    }
}

/// What bytes say is one thing: those that say a job say no other and have no fault, and no bytes
/// have two faults.
pub fn job_file_has_one_reading()
    ensures one_job { (bytes : List ℕ) (job other : JobText) → Says bytes job → Says bytes other → job ≡ other }
    ensures no_fault { (bytes : List ℕ) (job : JobText) (fault : FaultAt)
        → Says bytes job → ¬ (Refuses bytes (At fault)) }
    ensures one_fault { (bytes : List ℕ) (fault other : FaultAt)
        → Refuses bytes (At fault) → Refuses bytes (At other) → fault ≡ other }
{}

/// The fault of bytes that `toml` reads no document from.
fn fault_of(error: &toml::de::Error) -> JobsFault
    ensures { IsToldBy error.now result }
{
    if error.is_memory() {
        JobsFault::Memory
    } else {
        JobsFault::At(JobFault::of_document(JobWhy::NotToml))
    }
}

/// The job that a document says.
#[tactic(auto, unfolding(crate::specs::Reading::read_document))]
fn read_document(alloc: Global, document: &Table) -> Result<Job, JobsFault>
    ensures { AnswersDocument (λ job. job) result (read_document (table_view document.now)) }
{
    let (limits, array) = located_parts(document)?;
    let draft = drafts_of(alloc, array)?;
    draft.check_graph()?;
    let job = draft.into_job(alloc, limits)?;
    Ok(job)
}

/// The limits and the array of the vertices, or a fault of no single vertex.
fn located_parts(document: &Table) -> Result<(Limits, &Array), JobFault>
    ensures read { result_map (λ parts. (parts.0, array_view parts.1.now)) result
        ≡ faulty fault_of_document (parts_of (table_view document.now)) }
    ensures few { IfOk result (λ parts. item_count (array_view parts.1.now) ≤ 32) }
{
    match parts_of(document) {
        Ok(parts) => Ok(parts),
        Err(why) => Err(JobFault::of_document(why)),
    }
}

/// The limits and the array of the vertices.
#[tactic(auto, unfolding(crate::specs::Reading::parts_of))]
fn parts_of(document: &Table) -> Result<(Limits, &Array), JobWhy>
    ensures read { result_map (λ parts. (parts.0, array_view parts.1.now)) result ≡ parts_of (table_view document.now) }
    ensures few { IfOk result (λ parts. item_count (array_view parts.1.now) ≤ 32) }
{
    if !has_only(document, &["job", "vertex"]) {
        return Err(JobWhy::UnknownField);
    }
    let limits = limits_of(document)?;
    let array = items_of(document)?;
    Ok((limits, array))
}

/// The array of the vertices.
#[tactic(auto, unfolding(crate::specs::Reading::items_of))]
fn items_of(document: &Table) -> Result<&Array, JobWhy>
    ensures read { result_map (λ array. array_view array.now) result ≡ items_of (table_view document.now) }
    ensures few { IfOk result (λ array. item_count (array_view array.now) ≤ 32) }
{
    let field = FieldName::Vertex;
    let array = match value_at(document, field) {
        Some(value) => match value.as_array() {
            Some(array) if are_tables(array) => array,
            _ => return Err(JobWhy::WrongKind { field }),
        },
        None => return Err(JobWhy::MissingField { field }),
    };
    if is_too_long(array) {
        return Err(JobWhy::TooManyVertices);
    }
    Ok(array)
}

/// Whether each item is a table.
fn are_tables(array: &Array) -> bool
    ensures { result ≡ are_tables (array_view array.now) }
{
    array.iter().all(|value| is_table(value))
}

fn is_table(value: &Value) -> bool
    ensures { result ≡ is_some (as_table (view value.now)) }
{
    value.as_table().is_some()
}

fn is_too_long(array: &Array) -> bool
    ensures { result ≡ nat_lt most_vertices (item_count (array_view array.now)) }
{
    array.len() > MOST_VERTICES
}

/// The vertices of the tables of an array.
fn drafts_of(alloc: Global, array: &Array) -> Result<Draft, JobsFault>
    requires { item_count (array_view array.now) ≤ 32 }
    ensures { AnswersDocument (λ draft. draft) result (drafts_after 0 empty_draft (array_view array.now)) }
{
    let mut draft = Draft::new(alloc);
    for (v, value) in array.iter().enumerate() {
        match draft_at(alloc, v as u32, &mut draft, value) {
            Ok(()) => {}
            Err(fault) => return Err(fault),
        }
    }
    Ok(draft)
}

/// Adds vertex number `v` to those before it. After a fault the draft is of no further use.
#[tactic(auto, unfolding(crate::specs::Reading::draft_at))]
fn draft_at(alloc: Global, v: u32, draft: &mut Draft, value: &Value) -> Result<(), JobsFault>
    requires { length draft.old.nodes < 32 }
    ensures added { OnOk result (draft_at v draft.old (view value.now) ≡ Ok draft.new) }
    ensures refused { IfErr result (λ e. IsFaultOfDocument e (draft_at v draft.old (view value.now))) }
    ensures count { OnOk result (length draft.new.nodes ≡ length draft.old.nodes + 1) }
{
    match value.as_table() {
        Some(table) => match add_vertex(alloc, draft, table) {
            Ok(()) => Ok(()),
            Err(Refusal::Why(why)) => Err(JobsFault::At(JobFault::of_vertex(v, why))),
            Err(Refusal::Memory) => Err(JobsFault::Memory),
        },
        None => Err(JobsFault::At(JobFault::of_document(JobWhy::WrongKind {
            field: FieldName::Vertex,
        }))),
    }
}
