//! Keys, elements and their lines.
ghost use Rattle.std.specs.Prelude.{◌≡◌, IfOk};

use crate::lines::lines_of;
use crate::told::{number, shown, value};
use ss_elem::{Bound, Element, Event, Key, valid_next};
use std::alloc::Global;
use std::test::Fail;

/// The key, or why the text is none.
pub(crate) fn key(alloc: Global, text: &[u8]) -> Result<Vec<u8>, Fail> {
    match Key::of(text) {
        Ok(key) => key_text(alloc, &key),
        Err(bad) => shown(alloc, &bad),
    }
}

/// The text of a key.
pub(crate) fn key_text(alloc: Global, key: &Key) -> Result<Vec<u8>, Fail> {
    let (padded, count) = key.bytes();
    Ok(padded[..count].to_vec(alloc)?)
}

/// The bound behind an element that comes at a bound, or why it may not come.
pub(crate) fn next(alloc: Global, bound: Option<u64>, text: &str) -> Result<Vec<u8>, Fail> {
    let bound = bound_at(bound.ok_or("a bound is missing")?)?;
    match valid_next(bound, &element_of(text)?) {
        Ok(next) => shown(alloc, &next.get()),
        Err(fault) => shown(alloc, &fault),
    }
}

/// The bound of that number.
pub(crate) fn bound_at(number: u64) -> Result<Bound, Fail> {
    if number == 0 {
        return Ok(Bound::ZERO);
    }
    if number == 1 << 63 {
        return Ok(Bound::TOP);
    }
    Ok(valid_next(Bound::ZERO, &Element::Cti(number))?)
}

/// The line of an element.
pub(crate) fn line_of(alloc: Global, text: &str) -> Result<Vec<u8>, Fail> {
    lines_of(alloc, &[element_of(text)?])
}

/// The element of a line, whatever its times are; the last two values of a row may be left out.
pub(crate) fn element_of(text: &str) -> Result<Element, Fail> {
    if text == "end" {
        return Ok(Element::End);
    }
    let mut cells = text.split(",");
    match cells.next() {
        Some("cti") => Ok(Element::Cti(number(cells.next())?)),
        Some("event") => {
            let (start, end) = (number(cells.next())?, number(cells.next())?);
            let key = cells.next().ok_or("a key is missing")?;
            let (a, b) = (value(cells.next())?, value(cells.next())?);
            let (c, d) = match cells.next() {
                None => (0, 0),
                third => (value(third)?, value(cells.next())?),
            };
            Ok(Element::Row(event(start, end, key, [a, b, c, d])?))
        }
        _ => Err(Fail::new(format_args!("no element: {text}"))),
    }
}

/// A row with four values.
pub(crate) fn event(start: u64, end: u64, key: &str, values: [i64; 4]) -> Result<Event, Fail>
    ensures start { IfOk result (λ row. row.start ≡ start) }
    ensures end { IfOk result (λ row. row.end ≡ end) }
{
    let key = Key::of(key.as_bytes())?;
    let [a, b, c, d] = values;
    Ok(Event {
        start,
        end,
        key,
        a,
        b,
        c,
        d,
    })
}
