/// One step of a running job. `v` and `k` are numbers of vertices, `k` that of a sink and `v` that of any other
/// vertex; `r` is the number of a replica.
#[derive(Clone, Copy, Debug, PartialEq, Eq)]
pub enum Act {
    /// The replica takes the next element of its inputs.
    Read { v: u32, r: u32 },
    /// The replica writes the first of the elements that it has made to the vertex's stream.
    Write { v: u32, r: u32 },
    /// The replica's state is stored.
    Snap { v: u32, r: u32 },
    /// The replica goes down and forgets its state.
    Crash { v: u32, r: u32 },
    /// The replica comes up again, from what is stored.
    Load { v: u32, r: u32 },
    /// The elements of the vertex's stream that are held in memory are lost.
    Lose { v: u32 },
    /// At most `count` elements of the vertex's stream are stored.
    Flush { v: u32, count: u32 },
    /// The sink puts the line of the next stored element of its stream.
    Take { k: u32 },
    /// The stored elements of the vertex's stream that nothing needs any more are dropped.
    Collect { v: u32 },
    /// What is stored for the vertex itself and needed no more is given up: snapshots, or elements of a source's
    /// file.
    Trim { v: u32 },
    /// Every stream is collected and its vertex trimmed, from the last declared to the first.
    Pass,
}
