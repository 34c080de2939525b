use ss_elem::Element;

/// What a flush came to.
#[derive(Clone, Copy, Debug, PartialEq, Eq)]
pub enum Flush {
    /// With this batch more elements would be stored since the last whole pass, of which there were `since`, than may
    /// be between two passes. Nothing was stored.
    PassDue { since: u64 },
    /// The batch begins at `from`, above the first element that isn't stored, `dur`. Nothing was stored.
    Apart { from: u64, dur: u64 },
    /// `count` elements were stored, and element `dur` is the first that isn't yet.
    Flushed { count: u64, dur: u64 },
}

/// What came of a snapshot that was to be stored.
#[derive(Clone, Copy, Debug, PartialEq, Eq)]
pub enum Keep {
    /// It is stored already.
    Known,
    /// It lies below `low`, from which the vertex would be recovered now.
    Old { low: u64 },
    /// It is stored from now on.
    Kept,
}

/// What a read of a stored element gives.
#[derive(Clone, Copy, Debug, PartialEq, Eq)]
pub enum Read {
    /// It was stored and is dropped, as all elements below `base`.
    Gone { base: u64 },
    /// It isn't stored, as none from `dur` on.
    NotYet { dur: u64 },
    /// The element.
    Item(Element),
}

/// What came of a sink's next line.
#[derive(Clone, Copy, Debug, PartialEq, Eq)]
pub enum Take {
    /// The sink has put all its lines.
    Ended,
    /// The sink has put the lines of all `dur` elements that are stored.
    NotYet { dur: u64 },
    /// The line of element `n` was put.
    Took { n: u64 },
}
