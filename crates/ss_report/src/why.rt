//! The texts of causes.
ghost use Rattle.std.specs.Prelude.{◌≡◌, ◌++◌, OnOk, OnErr};
ghost use Rattle.std.specs.Fmt.{decimal};
ghost use Rattle.ss_job.specs.Format.{key_of};
ghost use Rattle.ss_report.specs.WhyText.{event_why, job_why, range_text, script_why};

use crate::Memory;
use crate::put::put;
use itoa::Buffer;
use ss_events::EventWhy;
use ss_fail::ScriptWhy;
use ss_job::{FieldName, JobWhy};

/// Appends why the bytes of a job file say no job, or nothing.
pub(crate) fn put_job_why(why: &JobWhy, out: &mut Vec<u8>) -> Result<(), Memory>
    ensures text { OnOk result (out.new.items ≡ out.old.items ++ job_why why.now) }
    ensures kept { OnErr result (out.new.items ≡ out.old.items) }
{
    match why {
        JobWhy::NotToml => put(out, &[b"not a TOML document"]),
        JobWhy::MissingField { field } => put(out, &[b"missing ", key_of(*field)]),
        JobWhy::WrongKind { field } => put(out, &[b"wrong kind of ", key_of(*field)]),
        JobWhy::UnknownField => put(out, &[b"unknown field"]),
        JobWhy::BadName => put(out, &[b"bad name"]),
        JobWhy::RepeatedName => put(out, &[b"repeated name"]),
        JobWhy::RepeatedFile => put(out, &[b"repeated file"]),
        JobWhy::BadOp => put(out, &[b"unknown op"]),
        JobWhy::BadWord { field } => put(out, &[b"bad ", key_of(*field)]),
        JobWhy::LaterInput => put(out, &[b"input names no earlier vertex"]),
        JobWhy::SinkAsInput => put(out, &[b"input is a sink"]),
        JobWhy::WrongInputCount => put(out, &[b"wrong number of inputs"]),
        JobWhy::BadRange {
            field,
            got,
            least,
            most,
        } => put_range(key_of(*field), *got, *least, *most, out),
        JobWhy::BadExpr { field, at } => put(
            out,
            &[
                b"bad expression ",
                key_of(*field),
                b" at ",
                Buffer::new().format(*at).as_bytes(),
            ],
        ),
        JobWhy::Unread => put(out, &[b"nothing reads this vertex"]),
        JobWhy::NoSink => put(out, &[b"no sink"]),
        JobWhy::TooManyVertices => put(out, &[b"too many vertices"]),
    }
}

/// Appends that a number is out of its range, or nothing.
fn put_range(key: &[u8], got: i64, least: i64, most: i64, out: &mut Vec<u8>) -> Result<(), Memory>
    ensures text { OnOk result (out.new.items ≡ out.old.items ++ range_text key.now got least most) }
    ensures kept { OnErr result (out.new.items ≡ out.old.items) }
{
    put(
        out,
        &[
            key,
            b" is ",
            Buffer::new().format(got).as_bytes(),
            b", not ",
            Buffer::new().format(least).as_bytes(),
            b" to ",
            Buffer::new().format(most).as_bytes(),
        ],
    )
}

/// The key under which a field stands in a job file.
fn key_of(field: FieldName) -> &'static [u8]
    ensures { result.now ≡ key_of field }
{
    match field {
        FieldName::Job => b"job",
        FieldName::Vertex => b"vertex",
        FieldName::MaxElements => b"max_elements",
        FieldName::CollectEvery => b"collect_every",
        FieldName::Name => b"name",
        FieldName::Op => b"op",
        FieldName::Inputs => b"inputs",
        FieldName::File => b"file",
        FieldName::Late => b"late",
        FieldName::Where => b"where",
        FieldName::A => b"a",
        FieldName::B => b"b",
        FieldName::C => b"c",
        FieldName::D => b"d",
        FieldName::Size => b"size",
        FieldName::Hop => b"hop",
        FieldName::Gap => b"gap",
        FieldName::Agg => b"agg",
        FieldName::Of => b"of",
        FieldName::Recover => b"recover",
        FieldName::Every => b"every",
        FieldName::Replicas => b"replicas",
    }
}

/// Appends why a row of an event file is refused, or nothing.
pub(crate) fn put_event_why(why: &EventWhy, out: &mut Vec<u8>) -> Result<(), Memory>
    ensures text { OnOk result (out.new.items ≡ out.old.items ++ event_why why.now) }
    ensures kept { OnErr result (out.new.items ≡ out.old.items) }
{
    match why {
        EventWhy::TooManyRows => put(out, &[b"too many rows"]),
        EventWhy::AfterEnd => put(out, &[b"row after end"]),
        EventWhy::BadKind => put(out, &[b"bad kind"]),
        EventWhy::BadCount => put(out, &[b"bad number of fields"]),
        EventWhy::BadNumber => put(out, &[b"bad number"]),
        EventWhy::BadKey => put(out, &[b"bad key"]),
        EventWhy::EmptySpan => put(out, &[b"empty span"]),
        EventWhy::EarlyEvent { start, bound } => {
            put_times(b"event starts at ", *start, b", before ", *bound, out)
        }
        EventWhy::BackwardCti { time, bound } => {
            put_times(b"cti goes back from ", *bound, b" to ", *time, out)
        }
    }
}

/// Appends why a line of a script is refused, or nothing.
pub(crate) fn put_script_why(why: &ScriptWhy, out: &mut Vec<u8>) -> Result<(), Memory>
    ensures text { OnOk result (out.new.items ≡ out.old.items ++ script_why why.now) }
    ensures kept { OnErr result (out.new.items ≡ out.old.items) }
{
    match why {
        ScriptWhy::BadWord => put(out, &[b"bad word"]),
        ScriptWhy::BadCount => put(out, &[b"bad number of words"]),
        ScriptWhy::UnknownName => put(out, &[b"unknown name"]),
        ScriptWhy::BadNumber => put(out, &[b"bad number"]),
        ScriptWhy::NoReplica => put(out, &[b"no such replica"]),
    }
}

/// Appends two times, each behind a text, or nothing.
fn put_times(
    before: &[u8],
    first: u64,
    between: &[u8],
    second: u64,
    out: &mut Vec<u8>,
) -> Result<(), Memory>
    ensures text { OnOk result (out.new.items
        ≡ out.old.items ++ (before.now ++ decimal first ++ between.now ++ decimal second)) }
    ensures kept { OnErr result (out.new.items ≡ out.old.items) }
{
    put(
        out,
        &[
            before,
            Buffer::new().format(first).as_bytes(),
            between,
            Buffer::new().format(second).as_bytes(),
        ],
    )
}
