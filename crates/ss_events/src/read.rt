ghost use Rattle.std.specs.Prelude.{◌≡◌, ◌++◌, IfErr, IfOk, Ok};
ghost use Rattle.std.specs.Option.{option_to_list};
ghost use Rattle.ss_elem.specs.Validity.{Whole};
ghost use Rattle.ss_events.specs.Events.{AllSourceTimes, AnswersReading, ending, event_list};
ghost use Rattle.ss_events.specs.declared.fault.EventsFault.TheVariants.{Memory};

use crate::fault::{EventFault, EventWhy, EventsFault};
use crate::late::Late;
use crate::records::Records;
use crate::row::row_given;
use csv::ByteRecord;
use ss_elem::{Bound, Element};
use std::alloc::Global;

const MOST_ROWS: u64 = 131_072;

/// The elements of an event file, or the first of its rows that is refused.
///
/// Rows are `event,START,END,KEY,A,B,C,D`, where each of B, C and D may be missing or empty for 0, `cti,T` and
/// `end`, these two with empty fields behind them, up to eight in all. The first row may be a header,
/// `kind,start,end,key,a,b,c,d` or the same without the last, the last two or the last three. Times are below
/// 2^62, values in `i64`, and a file has at most 131,072 rows. A `cti` with the time of the last one gives no
/// element, and a list without an `end` is ended all the same.
pub fn read_events(alloc: Global, bytes: &[u8], late: Late) -> Result<Vec<Element>, EventsFault>
    ensures exact { AnswersReading (λ list. list.items) result (event_list bytes.now late) }
    ensures whole { IfOk result (λ list. Whole list.items) }
    ensures times { IfOk result (λ list. AllSourceTimes list.items) }
{
    read_rows(alloc, bytes, late)
}

fn read_rows(alloc: Global, bytes: &[u8], late: Late) -> Result<Vec<Element>, EventsFault>
    ensures { AnswersReading (λ list. list.items) result (event_list bytes.now late) }
{
    let mut records = Records::new(alloc, bytes);
    let mut row = ByteRecord::new(alloc);
    let mut list = Vec::new(alloc);
    let mut bound = Bound::ZERO;
    for number in 1..MOST_ROWS + 1 {
        if !records.next(&mut row)? {
            return ended(list, bound);
        }
        let (given, after) = match row_given(late, number, bound, &row) {
            Ok(next) => next,
            Err(why) => return Err(EventsFault::At(EventFault { row: number, why })),
        };
        push_given(&mut list, given)?;
        bound = after;
    }
    if records.next(&mut row)? {
        let too_many = EventFault {
            row: MOST_ROWS + 1,
            why: EventWhy::TooManyRows,
        };
        return Err(EventsFault::At(too_many));
    }
    ended(list, bound)
}

// Adds what a row gave.
fn push_given(list: &mut Vec<Element>, given: Option<Element>) -> Result<(), EventsFault>
    ensures pushed { IfOk result (λ _. list.new.items ≡ list.old.items ++ option_to_list given) }
    ensures memory { IfErr result (λ e. e ≡ Memory) }
{
    match given {
        Some(element) => list.push(element).map_err(|_| EventsFault::Memory),
        None => Ok(()),
    }
}

// The list with an end, which no row gave where the bound isn't the one after an end.
fn ended(mut list: Vec<Element>, bound: Bound) -> Result<Vec<Element>, EventsFault>
    ensures { AnswersReading (λ ended. ended.items) result (Ok (list.items ++ ending bound)) }
{
    if bound != Bound::TOP && list.push(Element::End).is_err() {
        return Err(EventsFault::Memory);
    }
    Ok(list)
}
