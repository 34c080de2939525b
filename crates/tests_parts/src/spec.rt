//! What an operator does, from the words that say it.
ghost use Rattle.std.specs.Prelude.{IfOk, IsTrue};
ghost use Rattle.ss_expr.specs.Kinds.{HasKind};
ghost use Rattle.ss_expr.specs.Operators.{HasWholeHops, IsComputable};

use crate::told::number;
use ss_expr::{Agg, Expr, Field, Spec, ValueKind, check_kind, parse};
use std::alloc::Global;
use std::test::Fail;

/// What a window aggregates.
#[derive(Clone, Copy)]
pub(crate) struct Settings {
    pub size: u64,
    pub hop: u64,
    pub agg: Agg,
    pub of: Field,
}

pub(crate) fn has_whole_hops(s: Settings) -> bool
    ensures { IsTrue result → HasWholeHops s.size s.hop }
{
    1 <= s.hop && s.hop <= 1 << 40 && s.hop <= s.size && s.size <= 64 * s.hop && s.size % s.hop == 0
}

/// The aggregate that is called so.
pub(crate) fn aggregate_of(word: Option<&str>) -> Result<Agg, Fail> {
    match word {
        Some("sum") => Ok(Agg::Sum),
        Some("least") => Ok(Agg::Least),
        Some("greatest") => Ok(Agg::Greatest),
        _ => Err(Fail::new("no aggregate")),
    }
}

/// The settings of `window SIZE HOP AGGREGATE FIELD`.
pub(crate) fn settings_of(text: &str) -> Result<Settings, Fail> {
    let mut words = text.split(" ");
    if words.next() != Some("window") {
        return Err(Fail::new("no window"));
    }
    let (size, hop) = (number(words.next())?, number(words.next())?);
    let agg = aggregate_of(words.next())?;
    let of = match words.next() {
        Some("a") => Field::A,
        Some("b") => Field::B,
        Some("c") => Field::C,
        Some("d") => Field::D,
        _ => return Err(Fail::new("no field")),
    };
    Ok(Settings { size, hop, agg, of })
}

/// The operator of `union`, `join`, `select TEST ; A ; B ; C ; D` or `window ..`.
pub(crate) fn spec_of(alloc: Global, text: &str) -> Result<Spec, Fail>
    ensures { IfOk result IsComputable }
{
    match text.strip_prefix("select ") {
        Some(rest) => select(alloc, rest),
        None if text == "union" => Ok(Spec::Union),
        None if text == "join" => Ok(Spec::Join),
        None => window(text),
    }
}

fn window(text: &str) -> Result<Spec, Fail>
    ensures { IfOk result IsComputable }
{
    let s = settings_of(text)?;
    if !has_whole_hops(s) {
        return Err(Fail::new("no window"));
    }
    Ok(Spec::Window {
        size: s.size,
        hop: s.hop,
        agg: s.agg,
        of: s.of,
    })
}

/// A select of the rows for which the test holds, of all where it is -.
fn select(alloc: Global, text: &str) -> Result<Spec, Fail>
    ensures { IfOk result IsComputable }
{
    let mut parts = text.split(" ; ");
    let test = parts.next().ok_or("a test is missing")?;
    let a = computed(alloc, parts.next().ok_or("a is missing")?)?;
    let b = computed(alloc, parts.next().ok_or("b is missing")?)?;
    let c = computed(alloc, parts.next().unwrap_or("c"))?;
    let d = computed(alloc, parts.next().unwrap_or("d"))?;
    if test == "-" {
        let test = None;
        return Ok(Spec::Select { test, a, b, c, d });
    }
    let test = parse(alloc, test)?;
    check_kind(&test, ValueKind::Truth)?;
    let test = Some(test);
    Ok(Spec::Select { test, a, b, c, d })
}

/// The expression of a number.
fn computed(alloc: Global, text: &str) -> Result<Expr, Fail>
    ensures { IfOk result (λ e. HasKind e ValueKind.Num) }
{
    let e = parse(alloc, text)?;
    check_kind(&e, ValueKind::Num)?;
    Ok(e)
}
