//! Why a case doesn't pass.
use crate::case::Field;
use crate::fault::{CasesFault, CasesWhy};
use std::alloc::{AllocError, AllocFailed};

/// Why a case doesn't pass.
#[derive(Debug, Drop)]
pub enum Stop {
    /// Something else came than was wanted.
    Differs(String),
    /// The case says nothing that can be done.
    Malformed(CasesFault),
    Memory,
}

impl From<AllocError> for Stop {
    fn from(_: AllocError) -> Stop {
        Stop::Memory
    }
}

impl<T: Drop> From<AllocFailed<T>> for Stop {
    fn from(_: AllocFailed<T>) -> Stop {
        Stop::Memory
    }
}

impl From<CasesFault> for Stop {
    fn from(fault: CasesFault) -> Stop {
        Stop::Malformed(fault)
    }
}

/// The words of a field aren't those that it takes.
pub fn bad_words(field: &Field) -> Stop {
    Stop::Malformed(CasesFault::At {
        line: field.line,
        why: CasesWhy::BadWords,
    })
}

/// A field that no case has.
pub fn unknown(field: &Field) -> Stop {
    Stop::Malformed(CasesFault::At {
        line: field.line,
        why: CasesWhy::UnknownField,
    })
}
