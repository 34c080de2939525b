//! Expressions.
use crate::elements::{event, key_text};
use crate::told::shown;
use ss_expr::{Expr, ParseFault, Value, ValueKind, check_kind, eval, parse};
use std::alloc::Global;
use std::test::Fail;

/// What a text is worth that is an expression of a kind, or where it is none and why, or where it is of another kind.
pub(crate) fn worth(alloc: Global, text: &str, kind: ValueKind) -> Result<Vec<u8>, Fail> {
    match parse(alloc, text) {
        Ok(e) => worth_of(alloc, &e, kind),
        Err(ParseFault::At(fault)) => {
            let text = format!(in alloc; "at {} {:?}", fault.at, fault.why)?;
            Ok(text.as_bytes().to_vec(alloc)?)
        }
        Err(ParseFault::Memory) => Err(Fail::new("memory")),
    }
}

/// The same of an expression.
fn worth_of(alloc: Global, e: &Expr, kind: ValueKind) -> Result<Vec<u8>, Fail> {
    let row = event(7, 9, "k", [5, 1, 11, -3])?;
    match check_kind(e, kind) {
        Ok(()) => match eval(e, &row) {
            Value::Num(number) => shown(alloc, &number),
            Value::Truth(truth) => shown(alloc, &truth),
            Value::Text(key) => key_text(alloc, &key),
        },
        Err(misfit) => {
            let text = format!(in alloc; "kind at {}", misfit.at)?;
            Ok(text.as_bytes().to_vec(alloc)?)
        }
    }
}
