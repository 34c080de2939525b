//! Places in a worker's course at which it may be looked at or held up.

/// Where a worker is.
#[derive(Clone, Copy, Debug, PartialEq, Eq)]
pub enum Place {
    /// It has the tail of v, which it is about to write to.
    TailHeld { v: u32 },
}

/// What a worker passes at each of its places. It has no answer, and a worker does the same whatever it is.
pub trait Gate {
    /// The worker of that number is at the place. It always returns.
    fn at(&self, worker: u32, place: Place);
}
