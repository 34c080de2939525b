//! The limits of a job.
ghost use Rattle.std.specs.Prelude.{◌≡◌};
ghost use Rattle.toml.specs.View.{table_view};
ghost use Rattle.ss_job.specs.Reading.{limits_from, limits_of};

use crate::document::{has_only, value_at};
use crate::fault::JobWhy;
use crate::field_name::FieldName;
use crate::fields::optional_number;
use toml::Table;

/// The most elements that a stream may have, and that may be stored between two passes of collection.
const MOST: u64 = 131072;

/// The fewest elements that may be stored between two passes of collection.
const FEWEST_COLLECTED: u64 = 64;

/// How many may be stored where the job says nothing.
const DEFAULT_COLLECTED: u64 = 256;

/// The limits of a job.
#[derive(Clone, Copy, Debug)]
pub(crate) struct Limits {
    pub(crate) max_elements: u64,
    pub(crate) collect_every: u64,
}

/// The limits that a document says.
#[tactic(auto, unfolding(crate::specs::Reading::limits_of))]
pub(crate) fn limits_of(document: &Table) -> Result<Limits, JobWhy>
    ensures { result ≡ limits_of (table_view document.now) }
{
    let field = FieldName::Job;
    match value_at(document, field) {
        Some(value) => match value.as_table() {
            Some(limits) => limits_from(limits),
            None => Err(JobWhy::WrongKind { field }),
        },
        None => Ok(Limits {
            max_elements: MOST,
            collect_every: DEFAULT_COLLECTED,
        }),
    }
}

#[tactic(auto, unfolding(crate::specs::Reading::limits_from))]
fn limits_from(limits: &Table) -> Result<Limits, JobWhy>
    ensures { result ≡ limits_from (table_view limits.now) }
{
    if !has_only(limits, &["max_elements", "collect_every"]) {
        return Err(JobWhy::UnknownField);
    }
    let max_elements = optional_number(limits, FieldName::MaxElements, MOST, 1, MOST)?;
    let collect_every = optional_number(
        limits,
        FieldName::CollectEvery,
        DEFAULT_COLLECTED,
        FEWEST_COLLECTED,
        MOST,
    )?;
    Ok(Limits {
        max_elements,
        collect_every,
    })
}
