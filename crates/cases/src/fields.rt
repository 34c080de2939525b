//! Cases whose fields set parts, ask something of them, and say what is to be told.
use crate::case::{Case, Field};
use crate::comparing::compare;
use crate::expand::{rest_of, text_of};
use crate::stop::{Stop, unknown};
use std::alloc::Global;
use std::test::Fail;

/// What the fields of a case have set so far.
pub trait Parts: Drop {
    /// Nothing is set.
    fn new(alloc: Global) -> Self;

    /// Takes a field, and tells what it says of it, if it is one that asks.
    fn take(&mut self, field: &Field) -> Result<Option<Vec<u8>>, Fail>;
}

/// Walks the fields of a case. `is` and `gives` want what the last field before them told, and `calls`, which has lines
/// `CALL: ANSWER`, wants these. A case that wants nothing is none.
pub fn check_fields<P: Parts>(alloc: Global, case: &Case) -> Result<Result<(), Stop>, Fail> {
    let mut parts = P::new(alloc);
    let mut told: Option<Vec<u8>> = None;
    let mut wants = false;
    for field in case.fields.iter() {
        if !is_wish(field) {
            told = parts.take(field)?;
        }
        if let Some(wanted) = wanted_by(alloc, field)? {
            wants = true;
            match check_field(alloc, field, &wanted, &told) {
                Ok(()) => (),
                Err(stop) => return Ok(Err(stop)),
            }
        }
    }
    if wants {
        Ok(Ok(()))
    } else {
        Err(Fail::new(format_args!("{} wants nothing", case.name)))
    }
}

/// Whether a field only says what is wanted.
fn is_wish(field: &Field) -> bool {
    matches!(field.word.as_str(), "is" | "gives")
}

/// What a field wants, if it does.
fn wanted_by(alloc: Global, field: &Field) -> Result<Option<Vec<u8>>, Fail> {
    match field.word.as_str() {
        "is" => Ok(Some(rest_of(alloc, field)?)),
        "gives" | "calls" => Ok(Some(text_of(alloc, field)?)),
        _ => Ok(None),
    }
}

/// Compares what a field wants with what was told.
fn check_field(
    alloc: Global,
    field: &Field,
    wanted: &[u8],
    told: &Option<Vec<u8>>,
) -> Result<(), Stop> {
    match told {
        Some(came) => {
            let name = format!(in alloc; "field at {}", field.line)?;
            compare(alloc, name.as_str(), wanted, came)
        }
        None => Err(unknown(field)),
    }
}
