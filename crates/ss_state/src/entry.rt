/// A change of the ledger, as the journal records it. `v` and `k` are numbers of vertices, `k` that of a sink.
///
/// A ledger is what its journal's entries make of the first one, so nothing changes it without an entry.
#[derive(Clone, Copy, Debug, PartialEq, Eq)]
pub enum Entry {
    /// `count` more elements of the vertex's stream are stored.
    Flushed { v: u32, count: u64 },
    /// Snapshot `n` of the vertex is stored.
    Kept { v: u32, n: u64 },
    /// The sink has put one line more.
    Took { k: u32 },
    /// The stored elements of the vertex's stream that no reader needs were dropped.
    Collected { v: u32 },
    /// The snapshots of the vertex below its low-water mark were dropped, or the source's mark was raised.
    Trimmed { v: u32 },
    /// Of a pass over every stream this many halves were made, each a stream collected or its vertex trimmed.
    Pass { halves: u32 },
}
