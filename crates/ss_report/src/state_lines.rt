//! The lines of reports.
ghost use Rattle.std.specs.Prelude.{◌≡◌, ◌<◌, ◌++◌, OnOk, OnErr, length, All};
ghost use Rattle.ss_report.specs.Joined.{Extends};
ghost use Rattle.ss_report.specs.StateText.{IsRowOf, name_of, names_text, op_text, state_text, vertex_text};

use crate::Memory;
use crate::put::put;
use crate::state_row::StateRow;
use crate::table_lines::{
    put_inst, put_journal, put_mark, put_sink, put_up, write_snaps, write_stream,
};
use itoa::Buffer;
use ss_fail::Role;
use ss_job::Op;

/// Appends a line of a report, with its newline, or nothing where memory runs out. `roles` are those of the job
/// whose vertices the row numbers.
pub fn state_line(row: &StateRow<'_>, roles: &[Role], out: &mut Vec<u8>) -> Result<(), Memory>
    requires { IsRowOf roles.now row.now }
    ensures line { OnOk result (out.new.items ≡ out.old.items ++ state_text roles.now row.now) }
    ensures kept { OnErr result (out.new.items ≡ out.old.items) }
{
    let length = out.len();
    match write_row(row, roles, out) {
        Ok(()) => Ok(()),
        Err(memory) => {
            out.truncate(length);
            Err(memory)
        }
    }
}

/// Appends a line of a report, or a part of it where memory runs out.
fn write_row(row: &StateRow<'_>, roles: &[Role], out: &mut Vec<u8>) -> Result<(), Memory>
    requires { IsRowOf roles.now row.now }
    ensures line { OnOk result (out.new.items ≡ out.old.items ++ state_text roles.now row.now) }
    ensures part { OnErr result (Extends out.old.items out.new.items) }
{
    match row {
        StateRow::Vertex {
            v,
            op,
            inputs,
            width,
        } => write_vertex(*v, *op, &inputs[..*width as usize], roles, out),
        StateRow::Source { mark, .. } => {
            write_stream(row, roles, out)?;
            put_mark(*mark, out)
        }
        StateRow::Inner { snaps, .. } => {
            write_stream(row, roles, out)?;
            write_snaps(snaps, out)
        }
        StateRow::Up {
            v,
            r,
            n,
            next,
            left,
        } => {
            put_inst(*v, *r, roles, out)?;
            put_up(*n, *next, *left, out)
        }
        StateRow::Down { v, r } => {
            put_inst(*v, *r, roles, out)?;
            put(out, &[b" down\n"])
        }
        StateRow::Sink { k, taken } => put_sink(*k, *taken, roles, out),
        StateRow::Journal { entries, since } => put_journal(*entries, *since, out),
        StateRow::Checked { count } => put(
            out,
            &[b"ok ", Buffer::new().format(*count).as_bytes(), b"\n"],
        ),
        StateRow::Summary { k, taken } => put_summary(*k, *taken, roles, out),
        StateRow::Done => put(out, &[b"done\n"]),
        StateRow::Written => put(out, &[b"written gen-job.toml gen-a.csv gen-b.csv\n"]),
    }
}

/// Appends the line of a vertex, or a part of it where memory runs out.
fn write_vertex(
    v: u32,
    op: Op,
    inputs: &[u32],
    roles: &[Role],
    out: &mut Vec<u8>,
) -> Result<(), Memory>
    requires named { v < length roles.now }
    requires inputs_named { All (λ input. input < length roles.now) inputs.now }
    ensures line { OnOk result (out.new.items ≡ out.old.items ++ vertex_text roles.now v op inputs.now) }
    ensures part { OnErr result (Extends out.old.items out.new.items) }
{
    put(
        out,
        &[
            Buffer::new().format(v).as_bytes(),
            b" ",
            name_of(roles, v),
            b" ",
        ],
    )?;
    put_op(op, out)?;
    write_names(inputs, roles, out)?;
    put(out, &[b"\n"])
}

/// Appends the word for what a vertex does, or nothing.
fn put_op(op: Op, out: &mut Vec<u8>) -> Result<(), Memory>
    ensures text { OnOk result (out.new.items ≡ out.old.items ++ op_text op) }
    ensures kept { OnErr result (out.new.items ≡ out.old.items) }
{
    match op {
        Op::Source => put(out, &[b"source"]),
        Op::Select => put(out, &[b"select"]),
        Op::Union => put(out, &[b"union"]),
        Op::Window => put(out, &[b"window"]),
        Op::Join => put(out, &[b"join"]),
        Op::Session => put(out, &[b"session"]),
        Op::Except => put(out, &[b"except"]),
        Op::Sink => put(out, &[b"sink"]),
    }
}

/// Appends the names of vertices, each behind a space, or some of them where memory runs out.
fn write_names(vertices: &[u32], roles: &[Role], out: &mut Vec<u8>) -> Result<(), Memory>
    requires { All (λ v. v < length roles.now) vertices.now }
    ensures text { OnOk result (out.new.items ≡ out.old.items ++ names_text roles.now vertices.now) }
    ensures part { OnErr result (Extends out.old.items out.new.items) }
{
    for v in vertices {
        put(out, &[b" ", name_of(roles, *v)])?;
    }
    Ok(())
}

/// Appends a sink's line of the summary, or nothing.
fn put_summary(k: u32, taken: u64, roles: &[Role], out: &mut Vec<u8>) -> Result<(), Memory>
    requires { k < length roles.now }
    ensures line { OnOk result (out.new.items ≡ out.old.items ++ state_text roles.now (StateRow.Summary k taken)) }
    ensures kept { OnErr result (out.new.items ≡ out.old.items) }
{
    put(
        out,
        &[
            b"sink ",
            name_of(roles, k),
            b" ",
            Buffer::new().format(taken).as_bytes(),
            b"\n",
        ],
    )
}

/// The name of a vertex.
pub(crate) fn name_of(roles: &[Role], v: u32) -> &[u8]
    requires { v < length roles.now }
    ensures { result.now ≡ name_of roles.now v }
{
    roles[v as usize].name.as_slice()
}
