//! The parts of the lines that tell the state of a run.
ghost use Rattle.std.specs.Prelude.{◌≡◌, ◌<◌, ◌++◌, OnOk, OnErr, length};
ghost use Rattle.std.specs.Fmt.{decimal};
ghost use Rattle.ss_report.specs.Joined.{Extends};
ghost use Rattle.ss_report.specs.StateText.{IsRowOf, inst_text, journal_text, mark_text, row_stream_text};
ghost use Rattle.ss_report.specs.StateText.{snaps_line_end, snaps_text, state_text, stored_text};
ghost use Rattle.ss_report.specs.StateText.{tail_text, torn_text, up_text};

use crate::Memory;
use crate::put::put;
use crate::state_lines::name_of;
use crate::state_row::StateRow;
use itoa::Buffer;
use ss_fail::Role;
use ss_water::SnapRow;

/// Appends the front of a row that tells of a stream, up to where it is torn, or a part of it where memory runs out;
/// nothing for another row.
pub(crate) fn write_stream(
    row: &StateRow<'_>,
    roles: &[Role],
    out: &mut Vec<u8>,
) -> Result<(), Memory>
    requires { IsRowOf roles.now row.now }
    ensures text { OnOk result (out.new.items ≡ out.old.items ++ row_stream_text roles.now row.now) }
    ensures part { OnErr result (Extends out.old.items out.new.items) }
{
    match row {
        StateRow::Source {
            v,
            base,
            dur,
            from,
            end,
            torn,
            ..
        }
        | StateRow::Inner {
            v,
            base,
            dur,
            from,
            end,
            torn,
            ..
        } => {
            put_stored(*v, *base, *dur, roles, out)?;
            put_tail(*from, *end, *torn, out)
        }
        _ => Ok(()),
    }
}

/// Appends what the store keeps of a stream, or nothing.
fn put_stored(v: u32, base: u64, dur: u64, roles: &[Role], out: &mut Vec<u8>) -> Result<(), Memory>
    requires { v < length roles.now }
    ensures text { OnOk result (out.new.items ≡ out.old.items ++ stored_text roles.now v base dur) }
    ensures kept { OnErr result (out.new.items ≡ out.old.items) }
{
    put(
        out,
        &[
            b"stream ",
            name_of(roles, v),
            b" base ",
            Buffer::new().format(base).as_bytes(),
            b" dur ",
            Buffer::new().format(dur).as_bytes(),
        ],
    )
}

/// Appends what the tail of a stream shows, or nothing.
fn put_tail(from: u64, end: u64, torn: bool, out: &mut Vec<u8>) -> Result<(), Memory>
    ensures text { OnOk result (out.new.items ≡ out.old.items ++ tail_text from end torn) }
    ensures kept { OnErr result (out.new.items ≡ out.old.items) }
{
    put(
        out,
        &[
            b" from ",
            Buffer::new().format(from).as_bytes(),
            b" end ",
            Buffer::new().format(end).as_bytes(),
            b" torn ",
            torn_word(torn),
        ],
    )
}

/// The word for whether a tail is torn.
fn torn_word(torn: bool) -> &'static [u8]
    ensures { result.now ≡ torn_text torn }
{
    if torn { b"yes" } else { b"no" }
}

/// Appends the mark of a source, with the end of its line, or nothing.
pub(crate) fn put_mark(mark: u64, out: &mut Vec<u8>) -> Result<(), Memory>
    ensures text { OnOk result (out.new.items ≡ out.old.items ++ mark_text mark) }
    ensures kept { OnErr result (out.new.items ≡ out.old.items) }
{
    put(
        out,
        &[b" mark ", Buffer::new().format(mark).as_bytes(), b"\n"],
    )
}

/// Appends the numbers of snapshots, with the end of their line, or a part of it where memory runs out.
pub(crate) fn write_snaps(snaps: &[SnapRow], out: &mut Vec<u8>) -> Result<(), Memory>
    ensures text { OnOk result (out.new.items ≡ out.old.items ++ snaps_line_end snaps.now) }
    ensures part { OnErr result (Extends out.old.items out.new.items) }
{
    put(out, &[b" snaps"])?;
    write_numbers(snaps, out)?;
    put(out, &[b"\n"])
}

/// Appends the numbers of snapshots, each behind a space, or some of them where memory runs out.
fn write_numbers(snaps: &[SnapRow], out: &mut Vec<u8>) -> Result<(), Memory>
    ensures text { OnOk result (out.new.items ≡ out.old.items ++ snaps_text snaps.now) }
    ensures part { OnErr result (Extends out.old.items out.new.items) }
{
    for snap in snaps {
        put(out, &[b" ", Buffer::new().format(snap.n).as_bytes()])?;
    }
    Ok(())
}

/// Appends the front of a replica's line, or nothing.
pub(crate) fn put_inst(v: u32, r: u32, roles: &[Role], out: &mut Vec<u8>) -> Result<(), Memory>
    requires { v < length roles.now }
    ensures text { OnOk result (out.new.items ≡ out.old.items ++ inst_text roles.now v r) }
    ensures kept { OnErr result (out.new.items ≡ out.old.items) }
{
    put(
        out,
        &[
            b"inst ",
            name_of(roles, v),
            b" ",
            Buffer::new().format(r).as_bytes(),
        ],
    )
}

/// Appends how far a replica is, with the end of its line, or nothing.
pub(crate) fn put_up(n: u64, next: u64, left: u64, out: &mut Vec<u8>) -> Result<(), Memory>
    ensures text { OnOk result (out.new.items ≡ out.old.items ++ up_text n next left) }
    ensures kept { OnErr result (out.new.items ≡ out.old.items) }
{
    put(
        out,
        &[
            b" up n ",
            Buffer::new().format(n).as_bytes(),
            b" next ",
            Buffer::new().format(next).as_bytes(),
            b" left ",
            Buffer::new().format(left).as_bytes(),
            b"\n",
        ],
    )
}

/// Appends the line of a sink in the state of a run, or nothing.
pub(crate) fn put_sink(k: u32, taken: u64, roles: &[Role], out: &mut Vec<u8>) -> Result<(), Memory>
    requires { k < length roles.now }
    ensures line { OnOk result (out.new.items ≡ out.old.items ++ state_text roles.now (StateRow.Sink k taken)) }
    ensures kept { OnErr result (out.new.items ≡ out.old.items) }
{
    put(
        out,
        &[
            b"sink ",
            name_of(roles, k),
            b" taken ",
            Buffer::new().format(taken).as_bytes(),
            b"\n",
        ],
    )
}

/// Appends the line of the journal, or nothing.
pub(crate) fn put_journal(entries: u64, since: u64, out: &mut Vec<u8>) -> Result<(), Memory>
    ensures text { OnOk result (out.new.items ≡ out.old.items ++ journal_text entries since) }
    ensures kept { OnErr result (out.new.items ≡ out.old.items) }
{
    put(
        out,
        &[
            b"journal ",
            Buffer::new().format(entries).as_bytes(),
            b" since ",
            Buffer::new().format(since).as_bytes(),
            b"\n",
        ],
    )
}
