//! What a pass knows of itself. It stands in contracts and proofs alone: no value of these types is ever made.
use std::collections::LinkedList;

/// What became of one take: of which slot, and with which numbers the value was taken and given back.
pub struct TakeRecord {
    /// The slot's number, from 0.
    pub slot: u64,
    /// Which take of the pass it was, from 1; 0 where the pass never took the slot.
    pub number: u64,
    /// The value's numbers as it was taken.
    pub taken: LinkedList<u64>,
    /// The value's numbers as it was given back, once it was.
    pub given: Option<LinkedList<u64>>,
}

/// What one pass holds and has done.
pub struct View<P> {
    /// The plan of every value that the pass takes. Only the view of a pass that was joined to another has none.
    pub plan: Option<P>,
    /// The pass's part of the shares that the first pass had. Whoever has all of them is alone.
    pub share: u64,
    /// The slots that the pass has, the last one taken first.
    pub has: LinkedList<u64>,
    /// How many takes answered `Some`. It stays at 2^64 - 1.
    pub takes: u64,
    /// How many takes answered `None`. It stays at 2^64 - 1.
    pub misses: u64,
    /// The newest entry first. The first one of a slot is the record of its last take.
    pub log: LinkedList<TakeRecord>,
    /// How often the pass asked for a stop.
    pub stops: u64,
    /// How often the pass was told of a stop.
    pub heard: u64,
}
