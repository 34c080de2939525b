// The fields of a row, each read as what it is to be.

ghost use Rattle.std.specs.Prelude.{◌≡◌, ◌<◌, ◌^◌, drop, IfOk};
ghost use Rattle.std.specs.List.{list_all};
ghost use Rattle.csv.specs.Records.{fields_of};
ghost use Rattle.ss_events.specs.Fields as spec;

use crate::fault::EventWhy;
use crate::number;
use csv::ByteRecord;
use ss_elem::Key;

const MOST_FIELDS: usize = 8;

/// Whether the field at this place has this text.
pub(crate) fn has_text(row: &ByteRecord, place: usize, text: &[u8]) -> bool
    ensures { result ≡ spec.has_text place text.now (fields_of row.now) }
{
    match row.get(place) {
        Some(field) => field == text,
        None => false,
    }
}

/// Tests that a row has at least so many fields, and no more than a row may have.
pub(crate) fn has_count(row: &ByteRecord, least: usize) -> Result<(), EventWhy>
    ensures { result ≡ spec.has_count least (fields_of row.now) }
{
    if least <= row.len() && row.len() <= MOST_FIELDS {
        Ok(())
    } else {
        Err(EventWhy::BadCount)
    }
}

/// Tests that all fields from this place on are empty.
pub(crate) fn is_padding(row: &ByteRecord, first: usize) -> Result<(), EventWhy>
    ensures { result ≡ spec.is_padding first (fields_of row.now) }
{
    if is_blank_from(row, first) {
        Ok(())
    } else {
        Err(EventWhy::BadCount)
    }
}

fn is_blank_from(row: &ByteRecord, first: usize) -> bool
    ensures { result ≡ list_all spec.is_empty (drop first (fields_of row.now)) }
{
    for place in first..row.len() {
        if !is_blank(row, place) {
            return false;
        }
    }
    true
}

// Whether the field at this place is missing or empty.
fn is_blank(row: &ByteRecord, place: usize) -> bool
    ensures { result ≡ spec.is_blank place (fields_of row.now) }
{
    match row.get(place) {
        Some(field) => field.is_empty(),
        None => true,
    }
}

/// The time in the field at this place.
pub(crate) fn time_at(row: &ByteRecord, place: usize) -> Result<u64, EventWhy>
    ensures time { result ≡ spec.time_at place (fields_of row.now) }
    ensures low { IfOk result (λ time. time < 2 ^ 62) }
{
    let Some(field) = row.get(place) else {
        return Err(EventWhy::BadNumber);
    };
    number::time_of(field).ok_or(EventWhy::BadNumber)
}

/// The value in the field at this place.
pub(crate) fn value_at(row: &ByteRecord, place: usize) -> Result<i64, EventWhy>
    ensures { result ≡ spec.value_at place (fields_of row.now) }
{
    let Some(field) = row.get(place) else {
        return Err(EventWhy::BadNumber);
    };
    number::value_of(field).ok_or(EventWhy::BadNumber)
}

/// The value in the field at this place, 0 where the field is missing or empty.
pub(crate) fn value_or_zero_at(row: &ByteRecord, place: usize) -> Result<i64, EventWhy>
    ensures { result ≡ spec.value_or_zero_at place (fields_of row.now) }
{
    if is_blank(row, place) {
        Ok(0)
    } else {
        value_at(row, place)
    }
}

/// The key in the field at this place.
pub(crate) fn key_at(row: &ByteRecord, place: usize) -> Result<Key, EventWhy>
    ensures { result ≡ spec.key_at place (fields_of row.now) }
{
    let Some(field) = row.get(place) else {
        return Err(EventWhy::BadKey);
    };
    Key::of(field).map_err(|_| EventWhy::BadKey)
}
