//! Look-ups in a TOML document.
ghost use Rattle.std.specs.Prelude.{◌≡◌, map, is_some, option_map, bytes_eq};
ghost use Rattle.std.specs.List.{list_any};
ghost use Rattle.toml.specs.Data.{as_str, get_member};
ghost use Rattle.toml.specs.View.{view, table_view, array_view};
ghost use Rattle.ss_job.specs.Answers.{result_map};
ghost use Rattle.ss_job.specs.Document.{has_only};
ghost use Rattle.ss_job.specs.Fields.{needed_text, optional_text, needed_integer, optional_integer, needed_texts};
ghost use Rattle.ss_job.specs.Format.{key_of, are_texts};

use crate::fault::JobWhy;
use crate::field_name::FieldName;
use toml::value::Array;
use toml::{Table, Value};

/// The value of a field, if the table has the field.
pub(crate) fn value_at(table: &Table, field: FieldName) -> Option<&Value>
    ensures { option_map (λ value. view value.now) result ≡ get_member (key_of field) (table_view table.now) }
{
    table.get(field.key())
}

/// The text of a field that has to be there.
#[tactic(auto, unfolding(crate::specs::Fields::needed_text))]
pub(crate) fn needed_text(table: &Table, field: FieldName) -> Result<&str, JobWhy>
    ensures { result_map (λ text. text.now) result ≡ needed_text field (table_view table.now) }
{
    match value_at(table, field) {
        Some(value) => value.as_str().ok_or(JobWhy::WrongKind { field }),
        None => Err(JobWhy::MissingField { field }),
    }
}

/// The text of a field that may be there.
#[tactic(auto, unfolding(crate::specs::Fields::optional_text))]
pub(crate) fn optional_text(table: &Table, field: FieldName) -> Result<Option<&str>, JobWhy>
    ensures { result_map (option_map (λ text. text.now)) result ≡ optional_text field (table_view table.now) }
{
    match value_at(table, field) {
        Some(value) => match value.as_str() {
            Some(text) => Ok(Some(text)),
            None => Err(JobWhy::WrongKind { field }),
        },
        None => Ok(None),
    }
}

/// The whole number of a field that has to be there.
#[tactic(auto, unfolding(crate::specs::Fields::needed_integer))]
pub(crate) fn needed_integer(table: &Table, field: FieldName) -> Result<i64, JobWhy>
    ensures { result ≡ needed_integer field (table_view table.now) }
{
    match value_at(table, field) {
        Some(value) => value.as_integer().ok_or(JobWhy::WrongKind { field }),
        None => Err(JobWhy::MissingField { field }),
    }
}

/// The whole number of a field that may be there.
#[tactic(auto, unfolding(crate::specs::Fields::optional_integer))]
pub(crate) fn optional_integer(table: &Table, field: FieldName) -> Result<Option<i64>, JobWhy>
    ensures { result ≡ optional_integer field (table_view table.now) }
{
    match value_at(table, field) {
        Some(value) => match value.as_integer() {
            Some(got) => Ok(Some(got)),
            None => Err(JobWhy::WrongKind { field }),
        },
        None => Ok(None),
    }
}

/// The array of texts of a field that has to be there.
#[tactic(auto, unfolding(crate::specs::Fields::needed_texts))]
pub(crate) fn needed_texts(table: &Table, field: FieldName) -> Result<&Array, JobWhy>
    ensures { result_map (λ array. array_view array.now) result ≡ needed_texts field (table_view table.now) }
{
    match value_at(table, field) {
        Some(value) => match value.as_array() {
            Some(array) if are_texts(array) => Ok(array),
            _ => Err(JobWhy::WrongKind { field }),
        },
        None => Err(JobWhy::MissingField { field }),
    }
}

/// Whether each item is a text.
fn are_texts(array: &Array) -> bool
    ensures { result ≡ are_texts (array_view array.now) }
{
    array.iter().all(|value| is_text(value))
}

fn is_text(value: &Value) -> bool
    ensures { result ≡ is_some (as_str (view value.now)) }
{
    value.as_str().is_some()
}

/// Whether a table has none but these fields.
pub(crate) fn has_only(table: &Table, fields: &[&str]) -> bool
    ensures { result ≡ has_only (map (λ field. field.now) fields.now) (table_view table.now) }
{
    table.keys().all(|key| is_among(key.as_str(), fields))
}

/// Whether a key is one of these fields.
fn is_among(key: &str, fields: &[&str]) -> bool
    ensures { result ≡ list_any (λ field. bytes_eq field key.now) (map (λ field. field.now) fields.now) }
{
    fields.contains(&key)
}
