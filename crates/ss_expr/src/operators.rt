ghost use Rattle.std.specs.Prelude.{◌≡◌};

/// An operator in front of its operand.
#[derive(Clone, Copy, Debug, PartialEq, Eq)]
pub enum UnaryOp {
    /// `not`
    Not,
    /// `-`
    Negate,
}

impl UnaryOp {
    ghost use Rattle.ss_expr.specs.Grammar.{unary_binding};

    /// How tightly it binds, and its operand at least.
    pub(crate) fn binding(self) -> u8
        ensures { result ≡ unary_binding self }
    {
        match self {
            UnaryOp::Not => 2,
            UnaryOp::Negate => 6,
        }
    }
}

/// What connects two truths.
#[derive(Clone, Copy, Debug, PartialEq, Eq)]
pub enum Connective {
    /// `or`
    Or,
    /// `and`
    And,
}

/// How two numbers or two texts are compared.
#[derive(Clone, Copy, Debug, PartialEq, Eq)]
pub enum Comparison {
    /// `=`
    Equal,
    /// `!=`
    NotEqual,
    /// `<`
    Less,
    /// `<=`
    AtMost,
    /// `>`
    Greater,
    /// `>=`
    AtLeast,
}

/// What is computed of two numbers.
#[derive(Clone, Copy, Debug, PartialEq, Eq)]
pub enum Arithmetic {
    /// `+`
    Add,
    /// `-`
    Subtract,
    /// `*`
    Multiply,
    /// `/`
    Divide,
    /// `%`
    Remainder,
}

/// An operator between its operands.
#[derive(Clone, Copy, Debug, PartialEq, Eq)]
pub enum BinaryOp {
    /// Of two truths a truth.
    Connect(Connective),
    /// Of two numbers or two texts a truth.
    Compare(Comparison),
    /// Of two numbers a number.
    Compute(Arithmetic),
}

impl BinaryOp {
    ghost use Rattle.ss_expr.specs.Grammar.{binding, left_binding, right_binding};

    /// How tightly it binds.
    pub(crate) fn binding(self) -> u8
        ensures { result ≡ binding self }
    {
        match self {
            BinaryOp::Connect(Connective::Or) => 0,
            BinaryOp::Connect(Connective::And) => 1,
            BinaryOp::Compare(_) => 3,
            BinaryOp::Compute(Arithmetic::Add | Arithmetic::Subtract) => 4,
            BinaryOp::Compute(Arithmetic::Multiply | Arithmetic::Divide | Arithmetic::Remainder) =>
                5,
        }
    }

    /// How tightly its left side binds at least: as it does, but that comparisons don't repeat.
    pub(crate) fn left_binding(self) -> u8
        ensures { result ≡ left_binding self }
    {
        match self {
            BinaryOp::Compare(_) => 4,
            BinaryOp::Connect(_) | BinaryOp::Compute(_) => self.binding(),
        }
    }

    /// How tightly its right side binds at least: more tightly, so that repeated operators group to the left.
    pub(crate) fn right_binding(self) -> u8
        ensures { result ≡ right_binding self }
    {
        self.binding() + 1
    }
}
