ghost use Rattle.std.specs.Prelude.{◌≡◌, IfOk};

use crate::expr::Expr;
use crate::operators::{BinaryOp, UnaryOp};
use std::alloc::{AllocError, Global};

/// What waits for an operand to its right.
#[derive(Drop)]
pub(crate) enum Frame {
    /// An open bracket.
    Open,
    /// An operator in front of its operand, and its place.
    Prefix(UnaryOp, u64),
    /// An operator, its place and its left side.
    Left(BinaryOp, u64, Expr),
}

impl Frame {
    ghost use Rattle.ss_expr.specs.Reading.{binds, frame_levels, over};

    /// Whether this is an operator that binds at least so tightly.
    pub(crate) fn binds(&self, least: u8) -> bool
        ensures { result ≡ binds self.now least }
    {
        match self {
            Frame::Open => false,
            Frame::Prefix(op, _) => least <= op.binding(),
            Frame::Left(op, _, _) => least <= op.binding(),
        }
    }

    /// How many levels it opens.
    pub(crate) fn levels(&self) -> usize
        ensures { result ≡ frame_levels self.now }
    {
        match self {
            Frame::Open | Frame::Prefix(_, _) => 1,
            Frame::Left(_, _, _) => 0,
        }
    }

    /// The expression that this makes of its operand.
    pub(crate) fn over(self, alloc: Global, operand: Expr) -> Result<Expr, AllocError>
        ensures { IfOk result (λ e. e ≡ over self operand) }
    {
        match self {
            Frame::Open => Ok(operand),
            Frame::Prefix(op, at) => Expr::unary(alloc, op, at, operand),
            Frame::Left(op, at, left) => Expr::binary(alloc, op, at, left, operand),
        }
    }
}
