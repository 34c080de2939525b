//! Why the bytes of a job file give no job.

use crate::field_name::FieldName;
use std::alloc::AllocError;

/// Why there is no job.
#[derive(Clone, Copy, Debug, PartialEq, Eq)]
pub enum JobsFault {
    /// The bytes are at fault.
    At(JobFault),
    /// Memory ran out, which says nothing of the bytes.
    Memory,
}

impl From<AllocError> for JobsFault {
    ghost use Rattle.std.specs.Prelude.{◌≡◌};
    ghost use Rattle.ss_job.specs.declared.fault.JobsFault.TheVariants.{Memory};

    ghost from_gives = { λ _ fault. fault ≡ Memory };

    fn from(_: AllocError) -> JobsFault {
        JobsFault::Memory
    }
}

impl From<JobFault> for JobsFault {
    ghost use Rattle.std.specs.Prelude.{◌≡◌};
    ghost use Rattle.ss_job.specs.declared.fault.JobsFault.TheVariants.{At};

    ghost from_gives = { λ at fault. fault ≡ At at };

    fn from(fault: JobFault) -> JobsFault {
        JobsFault::At(fault)
    }
}

/// What is wrong with the bytes of a job file, and at which vertex.
#[derive(Clone, Copy, Debug, PartialEq, Eq)]
pub struct JobFault {
    /// The vertex at fault, counted from 0 in the order of the file. `None` where the fault is the
    /// whole document's.
    pub vertex: Option<u32>,
    /// What is wrong.
    pub why: JobWhy,
}

impl JobFault {
    ghost use Rattle.std.specs.Prelude.{◌≡◌};
    ghost use Rattle.ss_job.specs.Faults.{fault_of_document, fault_of_vertex};

    /// A fault of no single vertex.
    pub(crate) fn of_document(why: JobWhy) -> JobFault
        ensures { result ≡ fault_of_document why }
    {
        JobFault { vertex: None, why }
    }

    /// A fault of the vertex of this number.
    pub(crate) fn of_vertex(v: u32, why: JobWhy) -> JobFault
        ensures { result ≡ fault_of_vertex v why }
    {
        JobFault {
            vertex: Some(v),
            why,
        }
    }
}

/// What is wrong with the bytes of a job file.
#[derive(Clone, Copy, Debug, PartialEq, Eq)]
pub enum JobWhy {
    /// The bytes are no UTF-8 text, or the text is no TOML document.
    NotToml,
    /// A field that has to be there isn't.
    MissingField {
        field: FieldName,
    },
    /// A field holds no text, no whole number, no array of texts, no table, or no array of tables, as it has to.
    WrongKind {
        field: FieldName,
    },
    /// There is a field that the format doesn't have at its place.
    UnknownField,
    /// A vertex or a file can't have this name.
    BadName,
    /// An earlier vertex has the name.
    RepeatedName,
    /// An earlier sink writes to the file.
    RepeatedFile,
    /// No operator has this name.
    BadOp,
    /// The word is none of those that the field knows.
    BadWord {
        field: FieldName,
    },
    /// An input is the name of no earlier vertex.
    LaterInput,
    /// An input is the name of a sink.
    SinkAsInput,
    /// The operator takes another number of inputs.
    WrongInputCount,
    /// The number isn't one from `least` to `most`, or is no multiple of what it has to be a multiple of.
    BadRange {
        field: FieldName,
        got: i64,
        least: i64,
        most: i64,
    },
    /// The text isn't an expression of the kind that the field holds: `at` bytes of it stand before the fault.
    BadExpr {
        field: FieldName,
        at: u64,
    },
    /// No vertex reads this one, which is no sink.
    Unread,
    /// There is no sink.
    NoSink,
    /// There are more than 32 vertices.
    TooManyVertices,
}

/// Why a table gives no vertex.
#[derive(Clone, Copy, Debug)]
pub(crate) enum Refusal {
    /// The table is at fault.
    Why(JobWhy),
    /// Memory ran out.
    Memory,
}

impl From<AllocError> for Refusal {
    ghost use Rattle.std.specs.Prelude.{◌≡◌};
    ghost use Rattle.ss_job.specs.declared.fault.Refusal.TheVariants.{Memory};

    ghost from_gives = { λ _ refusal. refusal ≡ Memory };

    fn from(_: AllocError) -> Refusal {
        Refusal::Memory
    }
}

impl From<JobWhy> for Refusal {
    ghost use Rattle.std.specs.Prelude.{◌≡◌};
    ghost use Rattle.ss_job.specs.declared.fault.Refusal.TheVariants.{Why};

    ghost from_gives = { λ why refusal. refusal ≡ Why why };

    fn from(why: JobWhy) -> Refusal {
        Refusal::Why(why)
    }
}
