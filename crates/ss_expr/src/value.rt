use ss_elem::Key;

/// What an expression is worth on an event.
#[derive(Clone, Copy, Debug, PartialEq, Eq)]
pub enum Value {
    /// A whole number.
    Num(i64),
    /// A text of 1 to 16 bytes that a key may have.
    Text(Key),
    /// A truth.
    Truth(bool),
}
