ghost use Rattle.std.specs.Prelude.{◌≡◌, ◌++◌, ◌<◌, ◌^◌, FitsSigned, length, IsSome, OnOk, OnErr};
ghost use Rattle.std.specs.Int.{w64};
ghost use Rattle.ss_elem.specs.Rows.{IsKept};
ghost use Rattle.ss_elem.specs.Validity.{next_bound};
ghost use Rattle.ss_codec.specs.Joined.{Extends};
ghost use Rattle.ss_codec.specs.Numbers.{signed_bytes};
ghost use Rattle.ss_codec.specs.Record.{HasRecord, element_bytes, form_number, kind_number, last_bytes};
ghost use Rattle.ss_codec.specs.Record.{record_bytes, record_front};

use crate::Memory;
use crate::numbers::{bytes_of_i64, bytes_of_key, bytes_of_u32, bytes_of_u64};
use crate::put::{put, put_digest};
use ss_elem::{Element, Event};

/// The first byte of a record, but of a row whose third or fourth value isn't 0.
pub(crate) const RECORD_FORM: u8 = 1;

/// The first byte of such a row's record.
pub(crate) const LONG_FORM: u8 = 2;

/// Appends the record of the element that has number `n` in the stream of vertex `v`, or nothing where memory runs
/// out. The element is one that may stand first in a stream: the span of a row isn't empty, the time of a
/// current-time increment isn't 0, and times are below 2^63.
#[tactic(auto, unfolding(crate::specs::Record::record_bytes))]
pub fn put_element(v: u32, n: u64, x: &Element, out: &mut Vec<u8>) -> Result<(), Memory>
    requires first { IsSome (next_bound 0 x.now) }
    ensures record { OnOk result (out.new.items ≡ out.old.items ++ record_bytes v n x.now) }
    ensures kept { OnErr result (out.new.items ≡ out.old.items) }
    ensures few { length (record_bytes v n x.now) < 2 ^ 32 }
    ensures has_record { OnOk result (HasRecord x.now) }
{
    let start = out.len();
    match put_record(v, n, x, out) {
        Ok(()) => Ok(()),
        Err(memory) => {
            out.truncate(start);
            Err(memory)
        }
    }
}

/// Appends the record, or a part of it where memory runs out.
#[tactic(auto, unfolding(crate::specs::Record::record_bytes))]
fn put_record(v: u32, n: u64, x: &Element, out: &mut Vec<u8>) -> Result<(), Memory>
    ensures record { OnOk result (out.new.items ≡ out.old.items ++ record_bytes v n x.now) }
    ensures part { OnErr result (Extends out.old.items out.new.items) }
    ensures kept { OnOk result (IsKept x.now) }
{
    let start = out.len();
    put_front(v, n, x, out)?;
    put_digest(out, start)
}

/// Appends the record without its digest, or a part of it where memory runs out.
fn put_front(v: u32, n: u64, x: &Element, out: &mut Vec<u8>) -> Result<(), Memory>
    ensures front { OnOk result (out.new.items ≡ out.old.items ++ record_front v n x.now) }
    ensures part { OnErr result (Extends out.old.items out.new.items) }
    ensures kept { OnOk result (IsKept x.now) }
{
    let tags = [form_number(x), kind_number(x)];
    put(out, &[&tags, &bytes_of_u32(v), &bytes_of_u64(n)])?;
    match x {
        Element::Row(row) => put_row(row, out),
        Element::Cti(time) => put(out, &[&bytes_of_u64(*time)]),
        Element::End => Ok(()),
    }
}

/// Appends the bytes of a row, or a part of them where memory runs out.
fn put_row(row: &Event, out: &mut Vec<u8>) -> Result<(), Memory>
    ensures row { OnOk result (out.new.items ≡ out.old.items ++ element_bytes (Element.Row row.now)) }
    ensures part { OnErr result (Extends out.old.items out.new.items) }
    ensures kept { OnOk result (IsKept (Element.Row row.now)) }
{
    put(out, &[&bytes_of_u64(row.start), &bytes_of_u64(row.end)])?;
    put(out, &[&bytes_of_key(&row.key)])?;
    put_values(row, out)?;
    put_last(row, out)
}

/// Appends the bytes of a row's first two values, or a part of them where memory runs out.
fn put_values(row: &Event, out: &mut Vec<u8>) -> Result<(), Memory>
    ensures values { OnOk result (out.new.items ≡ out.old.items ++ signed_bytes row.now.a ++ signed_bytes row.now.b) }
    ensures part { OnErr result (Extends out.old.items out.new.items) }
    ensures a { FitsSigned w64 row.now.a }
    ensures b { FitsSigned w64 row.now.b }
{
    put(out, &[&bytes_of_i64(row.a), &bytes_of_i64(row.b)])
}

/// Appends the bytes of the other two, or a part of them where memory runs out; where both are 0 there are none.
fn put_last(row: &Event, out: &mut Vec<u8>) -> Result<(), Memory>
    ensures values { OnOk result (out.new.items ≡ out.old.items ++ last_bytes row.now) }
    ensures part { OnErr result (Extends out.old.items out.new.items) }
    ensures c { FitsSigned w64 row.now.c }
    ensures d { FitsSigned w64 row.now.d }
{
    let last = [bytes_of_i64(row.c), bytes_of_i64(row.d)];
    if row.has_two_values() {
        return Ok(());
    }
    put(out, &[&last[0], &last[1]])
}

/// The first byte of the element's record.
fn form_number(x: &Element) -> u8
    ensures { result ≡ form_number x.now }
{
    match x {
        Element::Row(row) => if row.has_two_values() {
            RECORD_FORM
        } else {
            LONG_FORM
        },
        Element::Cti(_) | Element::End => RECORD_FORM,
    }
}

/// The second byte of the element's record.
fn kind_number(x: &Element) -> u8
    ensures { result ≡ kind_number x.now }
{
    match x {
        Element::Row(_) => 0,
        Element::Cti(_) => 1,
        Element::End => 2,
    }
}
