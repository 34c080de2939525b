use std::alloc::AllocError;

/// Why a text is no expression.
#[derive(Clone, Copy, Debug, PartialEq, Eq)]
pub enum ExprWhy {
    /// The text has `len` bytes, more than 256.
    TooLong { len: u64 },
    /// Here no token begins: an unknown name, a quote without its text, or a byte that begins nothing.
    BadToken,
    /// A number here is above 9223372036854775807.
    BadNumber,
    /// A bracket, a `not` or a `-` in front of an operand opens the 17th level.
    TooDeep,
    /// No expression goes on with the token here, or the text ends here before the expression does.
    Unexpected,
}

/// The first place at which a text is no expression.
#[derive(Clone, Copy, Debug, PartialEq, Eq)]
pub struct ExprFault {
    /// How many bytes of the text stand before the place.
    pub at: u64,
    /// What is wrong there.
    pub why: ExprWhy,
}

/// Why no expression was read.
#[derive(Clone, Copy, Debug, PartialEq, Eq)]
pub enum ParseFault {
    /// The text is no expression.
    At(ExprFault),
    /// There was no memory for the expression.
    Memory,
}

impl From<AllocError> for ParseFault {
    ghost use Rattle.std.specs.Prelude.{◌≡◌};
    ghost use Rattle.ss_expr.specs.declared.fault.ParseFault.TheVariants.{Memory};

    ghost from_gives = { λ _ e. e ≡ Memory };

    fn from(_: AllocError) -> ParseFault {
        ParseFault::Memory
    }
}
