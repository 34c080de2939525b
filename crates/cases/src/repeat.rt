//! Lines that stand several times.
use crate::fault::{CasesFault, CasesWhy, bad};
use crate::group::number_of;
use std::alloc::Global;

/// Lines that stand so many times.
#[derive(Drop)]
pub(crate) struct Repeat {
    pub(crate) count: u64,
    pub(crate) lines: String,
}

impl Repeat {
    /// No line yet, to stand as many times as the text says.
    pub(crate) fn new(alloc: Global, count: &str, line: u64) -> Result<Repeat, CasesFault> {
        match number_of(count) {
            Some(count) => Ok(Repeat {
                count,
                lines: String::new(alloc),
            }),
            None => Err(bad(line, CasesWhy::BadNumber)),
        }
    }
}
