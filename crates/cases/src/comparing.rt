//! What was wanted beside what came.
ghost use Rattle.std.specs.Prelude.{◌≡◌, ◌↔◌, true};

use crate::stop::Stop;
use std::alloc::{AllocError, Global};

/// Whether the same bytes came as were wanted.
pub(crate) fn are_same(wanted: &[u8], came: &[u8]) -> bool
    ensures { (result ≡ true) ↔ (wanted.now ≡ came.now) }
{
    wanted == came
}

/// Compares the bytes of a name with those that are wanted.
pub fn compare(alloc: Global, name: &str, wanted: &[u8], came: &[u8]) -> Result<(), Stop> {
    if are_same(wanted, came) {
        return Ok(());
    }
    let wanted = String::from_utf8_lossy(alloc, wanted)?;
    let came = String::from_utf8_lossy(alloc, came)?;
    let told = difference(alloc, name, wanted.as_str(), came.as_str())?;
    Err(Stop::Differs(told))
}

/// The first line that differs, what was wanted there and what came.
fn difference(alloc: Global, name: &str, wanted: &str, came: &str) -> Result<String, AllocError> {
    let mut others = came.lines();
    let mut number = 1_u64;
    for line in wanted.lines() {
        match others.next() {
            Some(other) if other == line => (),
            Some(other) => return both(alloc, name, number, line, other),
            None => return both(alloc, name, number, line, "nothing"),
        }
        number = number.saturating_add(1);
    }
    match others.next() {
        Some(other) => both(alloc, name, number, "nothing", other),
        None => format!(in alloc; "{name}: the same lines, but other bytes at their ends"),
    }
}

/// Two lines beside each other.
fn both(
    alloc: Global,
    name: &str,
    number: u64,
    wanted: &str,
    came: &str,
) -> Result<String, AllocError> {
    format!(in alloc;
        "{name}: line {number}: wanted: {wanted}\n{name}: line {number}: came:   {came}"
    )
}

/// Compares two numbers.
pub fn compare_numbers(alloc: Global, what: &str, wanted: u64, found: u64) -> Result<(), Stop> {
    if wanted == found {
        return Ok(());
    }
    let told = format!(in alloc; "{what}: wanted: {wanted}\n{what}: came:   {found}")?;
    Err(Stop::Differs(told))
}
