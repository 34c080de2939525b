// Why an event file has no list.

/// Why a row of an event file is refused. Where several hold of a row, it is the first of them in this
/// order.
#[derive(Clone, Copy, Debug, PartialEq, Eq)]
pub enum EventWhy {
    /// The row is the 131,073rd.
    TooManyRows,
    /// A row before it is an `end`.
    AfterEnd,
    /// The first field is none of `event`, `cti` and `end`, and the row isn't the header either.
    BadKind,
    /// There are too few fields or too many, or one that is to be empty isn't.
    BadCount,
    /// A field that is to be a time or a value is none, or one out of range.
    BadNumber,
    /// The key has no byte, more than 16, or one that keys don't have.
    BadKey,
    /// The event's start is not below its end.
    EmptySpan,
    /// The event starts before the bound, and late rows are refused.
    EarlyEvent { start: u64, bound: u64 },
    /// The `cti` has a time below the bound.
    BackwardCti { time: u64, bound: u64 },
}

/// The first row of an event file that is refused.
#[derive(Clone, Copy, Debug, PartialEq, Eq)]
pub struct EventFault {
    /// Its number, from 1; a header counts. Lines without a field are no rows.
    pub row: u64,
    /// Why it is refused.
    pub why: EventWhy,
}

/// Why an event file gave no list.
#[derive(Clone, Copy, Debug, PartialEq, Eq)]
pub enum EventsFault {
    /// A row is refused.
    At(EventFault),
    /// Memory ran out.
    Memory,
}
