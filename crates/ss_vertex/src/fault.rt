/// Why an element isn't accepted.
#[derive(Clone, Copy, Debug, PartialEq, Eq)]
pub enum ExecFault {
    /// The vertex would have given `reached` elements, more than the job allows of a stream.
    Full { reached: u64 },
    /// Memory ran out.
    Memory,
}

/// Why there is no snapshot.
#[derive(Clone, Copy, Debug, PartialEq, Eq)]
pub enum SnapFault {
    /// So many outputs are left, at least one.
    Pending { left: u64 },
    /// Memory ran out.
    Memory,
}

/// Why an instance doesn't go on from a frame.
#[derive(Clone, Copy, Debug, PartialEq, Eq)]
pub enum LoadFault {
    /// The image is none of the vertex's operator: the entry or the row that begins at its byte `at` can't stand
    /// there, or, at 0, its length is wrong.
    Damaged { at: u64 },
    /// Memory ran out.
    Memory,
}
