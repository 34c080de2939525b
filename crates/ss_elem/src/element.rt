ghost use Rattle.std.specs.Prelude.{◌≡◌};
ghost use Rattle.ss_elem.specs.Rows.{has_two_values};

use crate::key::Key;

/// A row of a stream: a key and four values that hold from `start` up to, and without, `end`. Times have no unit of
/// their own; in a valid stream they are below 2^63.
#[derive(Clone, Copy, Debug, PartialEq, Eq)]
pub struct Event {
    /// The first time at which the row holds.
    pub start: u64,
    /// The first time after `start` at which it no longer holds.
    pub end: u64,
    /// What the row is about.
    pub key: Key,
    /// The first value.
    pub a: i64,
    /// The second value.
    pub b: i64,
    /// The third value.
    pub c: i64,
    /// The fourth value.
    pub d: i64,
}

impl Event {
    /// Whether the third and the fourth value are 0, so that the first two say all.
    pub fn has_two_values(&self) -> bool
        ensures { result ≡ has_two_values self.now }
    {
        self.c == 0 && self.d == 0
    }
}

/// One element of a stream.
#[derive(Clone, Copy, Debug, PartialEq, Eq)]
pub enum Element {
    /// A row.
    Row(Event),
    /// A current-time increment: no later row of the stream starts before this time, which is at least 1.
    Cti(u64),
    /// The end of the stream: nothing follows.
    End,
}
