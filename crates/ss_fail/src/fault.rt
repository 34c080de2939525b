/// What is wrong with a line of a script.
#[derive(Clone, Copy, Debug, PartialEq, Eq)]
pub enum ScriptWhy {
    /// The first word of a line, or the fourth of one of a failure file, is none that may stand there.
    BadWord,
    /// There are too few words or too many.
    BadCount,
    /// No vertex of the kind that is needed has this name.
    UnknownName,
    /// A number isn't decimal digits, or is out of its range.
    BadNumber,
    /// The vertex has fewer replicas.
    NoReplica,
}

/// The first line of a script at which something is wrong, counted from 1, and its first fault.
#[derive(Clone, Copy, Debug, PartialEq, Eq)]
pub struct ScriptFault {
    /// The line, counted from 1.
    pub line: u64,
    /// What is wrong.
    pub why: ScriptWhy,
}

/// Why no script was read.
#[derive(Clone, Copy, Debug, PartialEq, Eq)]
pub enum ScriptsFault {
    /// This is wrong with the bytes.
    At(ScriptFault),
    /// Memory ran out.
    Memory,
}
