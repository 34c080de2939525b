use ss_elem::Key;

/// What stands in an expression by itself.
#[derive(Clone, Copy, Debug, PartialEq, Eq)]
pub enum Atom {
    /// A whole number.
    Number(i64),
    /// A quoted text.
    Text(Key),
    /// The event's start.
    Start,
    /// The event's end.
    End,
    /// The event's key.
    Subject,
    /// The event's first value.
    A,
    /// The event's second value.
    B,
    /// The event's third value.
    C,
    /// The event's fourth value.
    D,
}
