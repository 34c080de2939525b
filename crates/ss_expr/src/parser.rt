ghost use Rattle.std.specs.Prelude.{◌≡◌, None, Some};
ghost use Rattle.ss_expr.specs.Answers.{AnswersReading, Steps};
ghost use Rattle.ss_expr.specs.Limits.{most_levels};
ghost use Rattle.ss_expr.specs.Reading as reading;

use crate::expr::Expr;
use crate::fault::{ExprFault, ExprWhy, ParseFault};
use crate::frame::Frame;
use crate::operators::{Arithmetic, BinaryOp, UnaryOp};
use crate::stack::Stack;
use crate::token::{Placed, Token};
use std::alloc::Global;

const MOST_LEVELS: usize = 16;

/// What the tokens so far have made of an expression.
#[derive(Drop)]
pub(crate) struct Parser {
    /// What waits for an operand.
    stack: Stack,
    /// The operand that was read last; none where one is wanted.
    tree: Option<Expr>,
}

impl Parser {
    /// Nothing is read yet.
    pub(crate) fn new(alloc: Global) -> Parser
        ensures { result ≡ reading.start }
    {
        Parser {
            stack: Stack::new(alloc),
            tree: None,
        }
    }

    /// Takes the next token. After an error the parser is of no further use.
    pub(crate) fn take(&mut self, alloc: Global, next: Placed) -> Result<(), ParseFault>
        ensures { Steps next.at (reading.step most_levels self.old next) self.new result }
    {
        match self.tree.take() {
            None => self.take_operand(next.at, next.token),
            Some(tree) => self.take_operator(alloc, tree, next.at, next.token),
        }
    }

    /// The expression, at the end of a text of so many bytes.
    pub(crate) fn finish(mut self, alloc: Global, size: u64) -> Result<Expr, ParseFault>
        ensures { AnswersReading result (reading.finish size self) }
    {
        match self.tree.take() {
            None => Err(unexpected(size)),
            Some(tree) => {
                let tree = self.stack.close(alloc, 0, tree)?;
                if self.stack.is_empty() {
                    Ok(tree)
                } else {
                    Err(unexpected(size))
                }
            }
        }
    }

    fn take_operand(&mut self, at: u64, token: Token) -> Result<(), ParseFault>
        requires { self.old.tree ≡ None }
        ensures { Steps at (reading.take_operand most_levels self.old.stack at token) self.new result }
    {
        match token {
            Token::Atom(atom) => {
                self.tree = Some(Expr::leaf(at, atom));
                Ok(())
            }
            Token::Open => self.deepen(at, Frame::Open),
            Token::Not => {
                if self.stack.wanted() > UnaryOp::Not.binding() {
                    return Err(unexpected(at));
                }
                self.deepen(at, Frame::Prefix(UnaryOp::Not, at))
            }
            Token::Operator(op) => self.take_minus(at, op),
            Token::Close => Err(unexpected(at)),
        }
    }

    fn take_minus(&mut self, at: u64, op: BinaryOp) -> Result<(), ParseFault>
        requires { self.old.tree ≡ None }
        ensures { Steps at (reading.take_minus most_levels self.old.stack at op) self.new result }
    {
        if op == BinaryOp::Compute(Arithmetic::Subtract) {
            self.deepen(at, Frame::Prefix(UnaryOp::Negate, at))
        } else {
            Err(unexpected(at))
        }
    }

    /// Opens a level.
    fn deepen(&mut self, at: u64, frame: Frame) -> Result<(), ParseFault>
        requires { self.old.tree ≡ None }
        ensures { Steps at (reading.deepen most_levels self.old.stack frame) self.new result }
    {
        if self.stack.open_levels() >= MOST_LEVELS {
            return Err(ParseFault::At(ExprFault {
                at,
                why: ExprWhy::TooDeep,
            }));
        }
        self.stack.push(frame)?;
        Ok(())
    }

    fn take_operator(
        &mut self,
        alloc: Global,
        tree: Expr,
        at: u64,
        token: Token,
    ) -> Result<(), ParseFault>
        requires { self.old.tree ≡ None }
        ensures { Steps at (reading.take_operator self.old.stack tree at token) self.new result }
    {
        match token {
            Token::Operator(op) => {
                let left = self.stack.close(alloc, op.left_binding(), tree)?;
                self.put_operator(op, at, left)
            }
            Token::Close => {
                let inside = self.stack.close(alloc, 0, tree)?;
                self.close_bracket(at, inside)
            }
            Token::Atom(_) | Token::Not | Token::Open => Err(unexpected(at)),
        }
    }

    /// An operator behind what binds tightly enough to be its left side.
    fn put_operator(&mut self, op: BinaryOp, at: u64, left: Expr) -> Result<(), ParseFault>
        requires { self.old.tree ≡ None }
        ensures { Steps at (reading.put_operator op at self.old.stack (Some left)) self.new result }
    {
        if self.stack.wanted() > op.binding() {
            return Err(unexpected(at));
        }
        self.stack.push(Frame::Left(op, at, left))?;
        Ok(())
    }

    /// A closing bracket behind what was opened last.
    fn close_bracket(&mut self, at: u64, inside: Expr) -> Result<(), ParseFault>
        requires { self.old.tree ≡ None }
        ensures { Steps at (reading.close_bracket self.old.stack (Some inside)) self.new result }
    {
        match self.stack.pop() {
            Some(Frame::Open) => {
                self.tree = Some(inside);
                Ok(())
            }
            Some(Frame::Prefix(_, _)) | Some(Frame::Left(_, _, _)) | None => Err(unexpected(at)),
        }
    }
}

fn unexpected(at: u64) -> ParseFault
    ensures { result ≡ ParseFault.At (record { at = at; why = ExprWhy.Unexpected }) }
{
    ParseFault::At(ExprFault {
        at,
        why: ExprWhy::Unexpected,
    })
}
