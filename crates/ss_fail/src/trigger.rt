use crate::act::Act;

/// An act that is to follow a write: the `count`-th, from 1, by which an element was added to the stream of
/// vertex `v`.
#[derive(Clone, Copy, Debug, PartialEq, Eq)]
pub struct Trigger {
    /// The number of the vertex whose stream is written.
    pub v: u32,
    /// Which write the act follows, counted from 1.
    pub count: u64,
    /// The act: a crash or a lose.
    pub act: Act,
}
