/// What came of an act.
#[derive(Clone, Copy, Debug, PartialEq, Eq)]
pub enum Outcome {
    /// The replica is down, and nothing was done.
    Down,
    /// The replica has `left` elements to write first.
    Pending { left: u64 },
    /// All inputs have ended; of a take, the end of the stream was taken before.
    Ended,
    /// Element `n` of this input was accepted.
    Got { input: u32, n: u64 },
    /// Element `n` of this input is stored no more, and the replica went down.
    Gone { input: u32, n: u64 },
    /// Element `n` of this input isn't there yet.
    Wait { input: u32, n: u64 },
    /// The stream ends at `end`, before the element to be written, and the replica went down.
    Gap { end: u64 },
    /// There was nothing to write, or the snapshot was to be of a source, which has none.
    Idle,
    /// Element `n` was written to the stream.
    Stored { n: u64 },
    /// The stream has element `n`, or snapshot `n` is stored, already.
    Known { n: u64 },
    /// Of a write, element `n` lies before those that the stream holds; of a snapshot, it is older than snapshot
    /// `n`, from which the vertex would be recovered.
    Old { n: u64 },
    /// Snapshot `n` was stored.
    Kept { n: u64 },
    /// The replica went down.
    Crashed,
    /// The replica was up already.
    Up,
    /// The replica came up, having accepted `n` elements.
    Loaded { n: u64 },
    /// `count` elements were lost.
    Lost { count: u64 },
    /// `count` elements were stored.
    Flushed { count: u64 },
    /// A pass must be made first: `since` elements were stored since the last.
    PassDue { since: u64 },
    /// The elements in memory begin at `from`, above `dur`, where the stored ones end.
    Apart { from: u64, dur: u64 },
    /// The line of element `n` was put.
    Took { n: u64 },
    /// All `dur` stored elements were taken.
    WaitDur { dur: u64 },
    /// The stored elements of the stream now begin at `n`.
    Base { n: u64 },
    /// The stored snapshots of the vertex now begin at `n`.
    Low { n: u64 },
    /// The elements of the source's file before `n` were given up.
    Mark { n: u64 },
    /// The pass was made.
    Passed,
}
