use crate::atom::Atom;
use crate::operators::BinaryOp;

/// The smallest parts of an expression's text.
#[derive(Clone, Copy, Debug, PartialEq, Eq)]
pub(crate) enum Token {
    /// What stands by itself.
    Atom(Atom),
    /// An operator between its operands; `-` stands in front of one operand too.
    Operator(BinaryOp),
    /// `not`
    Not,
    /// `(`
    Open,
    /// `)`
    Close,
}

/// A token, and how many bytes of the text stand before it.
#[derive(Clone, Copy, Debug, PartialEq, Eq)]
pub(crate) struct Placed {
    pub at: u64,
    pub token: Token,
}
