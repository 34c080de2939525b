//! What the fields of a table say: numbers in their ranges, words with a meaning, and expressions of a kind.
ghost use Rattle.std.specs.Prelude.{◌≡◌, ◌^◌, ◌<◌, ◌≤◌, IfOk, option_map};
ghost use Rattle.toml.specs.View.{table_view};
ghost use Rattle.ss_job.specs.Answers.{result_map, AnswersReading};
ghost use Rattle.ss_job.specs.Fields.{in_range, needed_number, optional_number, whole_hops, size_of, late_of};
ghost use Rattle.ss_job.specs.Fields.{value_of, replay_of, agg_of, expression_with, test_of, row_number_of};
ghost use Rattle.ss_job.specs.Lookup.{late_named, agg_named, value_named, replay_named};
ghost use Rattle.ss_job.specs.declared.fault.JobWhy.TheVariants.{BadExpr};
ghost use Rattle.ss_job.specs.declared.fault.Refusal.TheVariants.{Why};

use crate::document::{needed_integer, needed_text, optional_integer, optional_text};
use crate::fault::{JobWhy, Refusal};
use crate::field_name::FieldName;
use ss_events::Late;
use ss_expr::{Agg, Expr, Field, ParseFault, ValueKind, check_kind};
use std::alloc::Global;
use toml::Table;

/// The most hops that a size may have.
const MOST_HOPS: u64 = 64;

/// A number from `least` to `most`.
fn in_range(field: FieldName, least: u64, most: u64, got: i64) -> Result<u64, JobWhy>
    requires order { least ≤ most }
    requires fits { most < 2 ^ 63 }
    ensures number { result ≡ in_range field least most got }
    ensures within { IfOk result (λ number. (least ≤ number) × (number ≤ most)) }
{
    match u64::try_from(got) {
        Ok(number) if least <= number && number <= most => Ok(number),
        _ => Err(JobWhy::BadRange {
            field,
            got,
            least: least as i64,
            most: most as i64,
        }),
    }
}

/// The number of a field that has to be there.
#[tactic(auto, unfolding(crate::specs::Fields::needed_number))]
pub(crate) fn needed_number(
    table: &Table,
    field: FieldName,
    least: u64,
    most: u64,
) -> Result<u64, JobWhy>
    requires order { least ≤ most }
    requires fits { most < 2 ^ 63 }
    ensures number { result ≡ needed_number field least most (table_view table.now) }
    ensures within { IfOk result (λ number. (least ≤ number) × (number ≤ most)) }
{
    let got = needed_integer(table, field)?;
    in_range(field, least, most, got)
}

/// The number of a field that may be there.
#[tactic(auto, unfolding(crate::specs::Fields::optional_number))]
pub(crate) fn optional_number(
    table: &Table,
    field: FieldName,
    default: u64,
    least: u64,
    most: u64,
) -> Result<u64, JobWhy>
    requires least { least ≤ default }
    requires most { default ≤ most }
    requires fits { most < 2 ^ 63 }
    ensures number { result ≡ optional_number field default least most (table_view table.now) }
    ensures within { IfOk result (λ number. (least ≤ number) × (number ≤ most)) }
{
    match optional_integer(table, field)? {
        Some(got) => in_range(field, least, most, got),
        None => Ok(default),
    }
}

/// A window's size, which is one to 64 hops, and whole hops.
#[tactic(auto, unfolding(crate::specs::Fields::size_of))]
pub(crate) fn size_of(table: &Table, hop: u64) -> Result<u64, JobWhy>
    requires some { 0 < hop }
    requires most { hop ≤ 2 ^ 40 }
    ensures { result ≡ size_of hop (table_view table.now) }
{
    let got = needed_integer(table, FieldName::Size)?;
    whole_hops(hop, got)
}

fn whole_hops(hop: u64, got: i64) -> Result<u64, JobWhy>
    requires some { 0 < hop }
    requires most { hop ≤ 2 ^ 40 }
    ensures { result ≡ whole_hops hop got }
{
    let size = in_range(FieldName::Size, hop, MOST_HOPS * hop, got)?;
    if size % hop != 0 {
        return Err(JobWhy::BadRange {
            field: FieldName::Size,
            got,
            least: hop as i64,
            most: (MOST_HOPS * hop) as i64,
        });
    }
    Ok(size)
}

/// What becomes of rows that come late, which are refused where nothing is said.
#[tactic(auto, unfolding(crate::specs::Fields::late_of))]
pub(crate) fn late_of(table: &Table) -> Result<Late, JobWhy>
    ensures { result ≡ late_of (table_view table.now) }
{
    let field = FieldName::Late;
    match optional_text(table, field)? {
        Some(word) => late_named(word).ok_or(JobWhy::BadWord { field }),
        None => Ok(Late::Refuse),
    }
}

fn late_named(word: &str) -> Option<Late>
    ensures { result ≡ late_named word.now }
{
    match word {
        "refuse" => Some(Late::Refuse),
        "drop" => Some(Late::Drop),
        _ => None,
    }
}

/// What a window makes of its rows' values.
#[tactic(auto, unfolding(crate::specs::Fields::agg_of))]
pub(crate) fn agg_of(table: &Table) -> Result<Agg, JobWhy>
    ensures { result ≡ agg_of (table_view table.now) }
{
    let field = FieldName::Agg;
    let word = needed_text(table, field)?;
    agg_named(word).ok_or(JobWhy::BadWord { field })
}

fn agg_named(word: &str) -> Option<Agg>
    ensures { result ≡ agg_named word.now }
{
    match word {
        "sum" => Some(Agg::Sum),
        "min" => Some(Agg::Least),
        "max" => Some(Agg::Greatest),
        _ => None,
    }
}

/// Which value a window takes, the first where nothing is said.
#[tactic(auto, unfolding(crate::specs::Fields::value_of))]
pub(crate) fn value_of(table: &Table) -> Result<Field, JobWhy>
    ensures { result ≡ value_of (table_view table.now) }
{
    let field = FieldName::Of;
    match optional_text(table, field)? {
        Some(word) => value_named(word).ok_or(JobWhy::BadWord { field }),
        None => Ok(Field::A),
    }
}

fn value_named(word: &str) -> Option<Field>
    ensures { result ≡ value_named word.now }
{
    match word {
        "a" => Some(Field::A),
        "b" => Some(Field::B),
        "c" => Some(Field::C),
        "d" => Some(Field::D),
        _ => None,
    }
}

/// Whether an operator is recovered by replay, which it isn't where nothing is said.
#[tactic(auto, unfolding(crate::specs::Fields::replay_of))]
pub(crate) fn replay_of(table: &Table) -> Result<bool, JobWhy>
    ensures { result ≡ replay_of (table_view table.now) }
{
    let field = FieldName::Recover;
    match optional_text(table, field)? {
        Some(word) => replay_named(word).ok_or(JobWhy::BadWord { field }),
        None => Ok(false),
    }
}

fn replay_named(word: &str) -> Option<bool>
    ensures { result ≡ replay_named word.now }
{
    match word {
        "checkpoint" => Some(false),
        "replay" => Some(true),
        _ => None,
    }
}

/// The test of a select, where it has one.
#[tactic(auto, unfolding(crate::specs::Fields::test_of))]
pub(crate) fn test_of(alloc: Global, table: &Table) -> Result<Option<Expr>, Refusal>
    ensures { AnswersReading (λ test. test) result (test_of (table_view table.now)) }
{
    match optional_text(table, FieldName::Where)? {
        Some(text) => {
            let test = expression_with(alloc, FieldName::Where, ValueKind::Truth, text)?;
            Ok(Some(test))
        }
        None => Ok(None),
    }
}

/// A number that a select gives its rows. The field has the text `default` where it is left out.
#[tactic(auto, unfolding(crate::specs::Fields::row_number_of))]
pub(crate) fn row_number_of(
    alloc: Global,
    table: &Table,
    field: FieldName,
    default: &str,
) -> Result<Expr, Refusal>
    ensures { AnswersReading (λ e. e) result (row_number_of field default.now (table_view table.now)) }
{
    let text = optional_text(table, field)?.unwrap_or(default);
    expression_with(alloc, field, ValueKind::Num, text)
}

/// The expression with a text, if it is of this kind.
#[tactic(auto, unfolding(crate::specs::Fields::expression_with))]
fn expression_with(
    alloc: Global,
    field: FieldName,
    kind: ValueKind,
    text: &str,
) -> Result<Expr, Refusal>
    ensures { AnswersReading (λ e. e) result (expression_with field kind text.now) }
{
    match ss_expr::parse(alloc, text) {
        Ok(e) => match check_kind(&e, kind) {
            Ok(()) => Ok(e),
            Err(fault) => Err(bad_expression(field, fault.at)),
        },
        Err(ParseFault::At(fault)) => Err(bad_expression(field, fault.at)),
        Err(ParseFault::Memory) => Err(Refusal::Memory),
    }
}

fn bad_expression(field: FieldName, at: u64) -> Refusal
    ensures { result ≡ Why (BadExpr field at) }
{
    Refusal::Why(JobWhy::BadExpr { field, at })
}
