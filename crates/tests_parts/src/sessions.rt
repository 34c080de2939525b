//! Images of session windows, from the words that say their sessions.
ghost use Rattle.std.specs.Prelude.{IsTrue};
ghost use Rattle.ss_expr.specs.Operators.{HasGap};

use crate::elements::bound_at;
use crate::images::{answer_of, count, parted, put_key};
use crate::spec::aggregate_of;
use crate::told::number;
use ss_expr::Field;
use ss_session::{ImageFault, Session};
use std::alloc::Global;
use std::test::Fail;

/// What `session GAP AGGREGATE` answers to the bytes of these words: a count, and KEY,FIRST,LAST,VALUE,ROWS of each.
pub(crate) fn session_answer(
    alloc: Global,
    operator: &str,
    low: u64,
    words: &[String],
) -> Result<String, Fail> {
    let mut parts = operator.split(" ").skip(1);
    let gap = number(parts.next())?;
    let agg = aggregate_of(parts.next())?;
    let low = bound_at(low)?;
    if !has_gap(gap) {
        return Err(Fail::new("no session window"));
    }
    let bytes = session_bytes(alloc, words)?;
    match Session::of_image(alloc, gap, agg, Field::A, low, &bytes) {
        Ok(session) if session.held() < 1 << 25 => {
            let mut again = Vec::new(alloc);
            session.image(&mut again)?;
            answer_of(alloc, &again, &bytes)
        }
        Ok(_) => Err(Fail::new("too many sessions")),
        Err(ImageFault::At { at }) => Ok(format!(in alloc; "at {at}")?),
        Err(ImageFault::Memory) => Err(Fail::new("memory")),
    }
}

fn has_gap(gap: u64) -> bool
    ensures { IsTrue result → HasGap gap }
{
    1 <= gap && gap <= 1 << 40
}

fn session_bytes(alloc: Global, words: &[String]) -> Result<Vec<u8>, Fail> {
    let mut bytes = Vec::new(alloc);
    bytes.extend_from_slice(&count(words, 0)?)?;
    for session in words.iter().skip(1) {
        let (key, rest) = parted(session.as_str().split_once(","))?;
        let (first, rest) = parted(rest.split_once(","))?;
        let (last, rest) = parted(rest.split_once(","))?;
        let (total, rows) = parted(rest.split_once(","))?;
        put_key(&mut bytes, key)?;
        bytes.extend_from_slice(&number(Some(first))?.to_be_bytes())?;
        bytes.extend_from_slice(&number(Some(last))?.to_be_bytes())?;
        bytes.extend_from_slice(&total.parse::<i128>()?.cast_unsigned().to_be_bytes())?;
        bytes.extend_from_slice(&number(Some(rows))?.to_be_bytes())?;
    }
    Ok(bytes)
}
