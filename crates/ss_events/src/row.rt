// What a row gives: perhaps an element, and the bound for the rows behind it.

ghost use Rattle.std.specs.Prelude.{◌≡◌, ◌<◌, ◌^◌};
ghost use Rattle.csv.specs.Records.{fields_of};
ghost use Rattle.ss_events.specs.Rows as spec;

use crate::fault::EventWhy;
use crate::fields::{has_count, has_text, is_padding, key_at, time_at, value_at, value_or_zero_at};
use crate::late::Late;
use csv::ByteRecord;
use ss_elem::{Bound, Element, Event, valid_next};

/// What the first field of a row may say.
#[derive(Clone, Copy)]
pub(crate) enum RowKind {
    Event,
    Cti,
    End,
}

/// What a row gives: its element, where it has one, and the bound after it.
pub(crate) type Given = (Option<Element>, Bound);

/// What the row with this number gives behind rows with this bound.
pub(crate) fn row_given(
    late: Late,
    number: u64,
    bound: Bound,
    row: &ByteRecord,
) -> Result<Given, EventWhy>
    ensures { result ≡ spec.row_given late number bound (fields_of row.now) }
{
    if number == 1 && is_header(row) {
        Ok((None, bound))
    } else {
        row_after(late, bound, row)
    }
}

fn is_header(row: &ByteRecord) -> bool
    ensures { result ≡ spec.is_header (fields_of row.now) }
{
    has_text(row, 0, b"kind".as_slice())
        && has_text(row, 1, b"start".as_slice())
        && has_text(row, 2, b"end".as_slice())
        && has_text(row, 3, b"key".as_slice())
        && has_text(row, 4, b"a".as_slice())
        && has_last_names(row)
}

/// Whether the names behind `a` are those of a header that has so many fields.
fn has_last_names(row: &ByteRecord) -> bool
    ensures { result ≡ spec.has_last_names (fields_of row.now) }
{
    let b = has_text(row, 5, b"b".as_slice());
    let c = has_text(row, 6, b"c".as_slice());
    let d = has_text(row, 7, b"d".as_slice());
    match row.len() {
        5 => true,
        6 => b,
        7 => b && c,
        8 => b && c && d,
        _ => false,
    }
}

#[tactic(auto, unfolding(crate::specs::Rows::row_after))]
fn row_after(late: Late, bound: Bound, row: &ByteRecord) -> Result<Given, EventWhy>
    ensures { result ≡ spec.row_after late bound (fields_of row.now) }
{
    if bound == Bound::TOP {
        return Err(EventWhy::AfterEnd);
    }
    match kind_of(row)? {
        RowKind::Event => event_row(late, bound, row),
        RowKind::Cti => cti_row(bound, row),
        RowKind::End => end_row(row),
    }
}

fn kind_of(row: &ByteRecord) -> Result<RowKind, EventWhy>
    ensures { result ≡ spec.kind_of (fields_of row.now) }
{
    if has_text(row, 0, b"event".as_slice()) {
        Ok(RowKind::Event)
    } else if has_text(row, 0, b"cti".as_slice()) {
        Ok(RowKind::Cti)
    } else if has_text(row, 0, b"end".as_slice()) {
        Ok(RowKind::End)
    } else {
        Err(EventWhy::BadKind)
    }
}

#[tactic(auto, unfolding(crate::specs::Rows::event_row))]
fn event_row(late: Late, bound: Bound, row: &ByteRecord) -> Result<Given, EventWhy>
    ensures { result ≡ spec.event_row late bound (fields_of row.now) }
{
    let event = event_of(row)?;
    event_given(late, bound, event)
}

#[tactic(auto, unfolding(crate::specs::Rows::event_of))]
fn event_of(row: &ByteRecord) -> Result<Event, EventWhy>
    ensures { result ≡ spec.event_of (fields_of row.now) }
{
    has_count(row, 5)?;
    let start = time_at(row, 1)?;
    let end = time_at(row, 2)?;
    let key = key_at(row, 3)?;
    let a = value_at(row, 4)?;
    let b = value_or_zero_at(row, 5)?;
    let c = value_or_zero_at(row, 6)?;
    let d = value_or_zero_at(row, 7)?;
    Ok(Event {
        start,
        end,
        key,
        a,
        b,
        c,
        d,
    })
}

fn event_given(late: Late, bound: Bound, event: Event) -> Result<Given, EventWhy>
    ensures { result ≡ spec.event_given late bound event }
{
    if event.start >= event.end {
        return Err(EventWhy::EmptySpan);
    }
    if event.start >= bound.get() {
        return Ok((Some(Element::Row(event)), bound));
    }
    match late {
        Late::Refuse => Err(EventWhy::EarlyEvent {
            start: event.start,
            bound: bound.get(),
        }),
        Late::Drop => Ok((None, bound)),
    }
}

#[tactic(auto, unfolding(crate::specs::Rows::cti_row))]
fn cti_row(bound: Bound, row: &ByteRecord) -> Result<Given, EventWhy>
    ensures { result ≡ spec.cti_row bound (fields_of row.now) }
{
    has_count(row, 2)?;
    is_padding(row, 2)?;
    let time = time_at(row, 1)?;
    cti_given(bound, time)
}

fn cti_given(bound: Bound, time: u64) -> Result<Given, EventWhy>
    requires { time < 2 ^ 62 }
    ensures { result ≡ spec.cti_given bound time }
{
    if time < bound.get() {
        return Err(EventWhy::BackwardCti {
            time,
            bound: bound.get(),
        });
    }
    if time == bound.get() {
        return Ok((None, bound));
    }
    let cti = Element::Cti(time);
    match valid_next(bound, &cti) {
        Ok(after) => Ok((Some(cti), after)),
        // A time above the bound may follow, since it is below 2^62.
        Err(_) => unreachable!(),
    }
}

#[tactic(auto, unfolding(crate::specs::Rows::end_row))]
fn end_row(row: &ByteRecord) -> Result<Given, EventWhy>
    ensures { result ≡ spec.end_row (fields_of row.now) }
{
    has_count(row, 1)?;
    is_padding(row, 1)?;
    Ok((Some(Element::End), Bound::TOP))
}
