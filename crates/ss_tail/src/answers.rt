use ss_elem::Element;

/// What a tail answers to a write.
#[derive(Clone, Copy, Debug, PartialEq, Eq)]
pub enum Wrote {
    /// The element was added.
    Stored,
    /// The tail has the element already.
    Known,
    /// The element lies before those that the tail holds.
    Old,
    /// The tail ends at `end`, before the element's number.
    Gap { end: u64 },
}

/// What a tail answers to a read.
#[derive(Clone, Copy, Debug, PartialEq, Eq)]
pub enum Shown {
    /// The element.
    Item(Element),
    /// The tail's elements begin at `from`, behind the wanted one.
    Below { from: u64 },
    /// The tail ends at `end`, and was lost or restarted before: the wanted element may be stored.
    Torn { end: u64 },
    /// The tail ends at `end`, and the wanted element wasn't written yet.
    NotYet { end: u64 },
}

/// What a tail has to be stored: the elements from number `from` on, those of `first` and after them those of `rest`.
#[derive(Clone, Copy, Debug)]
pub struct Batch<'a> {
    /// The number of the first element.
    pub from: u64,
    pub first: &'a [Element],
    pub rest: &'a [Element],
}
