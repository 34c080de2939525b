ghost use Rattle.std.specs.Prelude.{◌≡◌, ◌∷◌, [], true, false, IfOk, IfSome, IsSome, MatchBool, MatchOption, OnOk};
ghost use Rattle.std.specs.Option.{option_copied};
ghost use Rattle.ss_expr.specs.Stacks.{first};

use crate::expr::Expr;
use crate::frame::Frame;
use std::alloc::{AllocError, Global};
use std::marker::Model;

/// The frames that wait, seen from the innermost to the outermost.
#[derive(Drop)]
pub(crate) struct Stack {
    frames: Vec<Frame>,
}

impl Model for Stack {
    ghost use Rattle.std.specs.Prelude.{List, reverse};
    ghost use Rattle.ss_expr.specs.declared.frame.Frame.{Frame};
    ghost use Rattle.ss_expr.specs.contracts.frame.Frame as frame;
    ghost use Rattle.ss_expr.specs.contracts.expr.Expr as expr;
    ghost use Rattle.std.specs.Coded.{codes};

    ghost Value = { List Frame };

    ghost coded = { Prim.hlevel (codes, expr.the_row.coded, frame.the_row.coded) };

    ghost view = { λ s. reverse s.frames.items };
}

impl Stack {
    ghost use Rattle.ss_expr.specs.Reading.{binds, close, holding, open_levels, wanted};

    pub(crate) fn new(alloc: Global) -> Stack
        ensures { result ≡ [] }
    {
        Stack {
            frames: Vec::new(alloc),
        }
    }

    pub(crate) fn is_empty(&self) -> bool
        ensures { MatchBool result (self.now ≡ []) (IsSome (first self.now)) }
    {
        self.frames.is_empty()
    }

    pub(crate) fn push(&mut self, frame: Frame) -> Result<(), AllocError>
        ensures { OnOk result (self.new ≡ frame ∷ self.old) }
    {
        self.frames.push(frame)?;
        Ok(())
    }

    pub(crate) fn pop(&mut self) -> Option<Frame>
        ensures { MatchOption result (self.old ≡ []) (λ frame. self.old ≡ frame ∷ self.new) }
    {
        self.frames.pop()
    }

    fn top(&self) -> Option<&Frame>
        ensures { option_copied result ≡ first self.now }
    {
        self.frames.last()
    }

    /// How tightly the operand has to bind that is wanted next.
    pub(crate) fn wanted(&self) -> u8
        ensures { result ≡ wanted self.now }
    {
        match self.top() {
            None => 0,
            Some(Frame::Open) => 0,
            Some(Frame::Prefix(op, _)) => op.binding(),
            Some(Frame::Left(op, _, _)) => op.right_binding(),
        }
    }

    /// How many levels are open where an operand is wanted.
    #[tactic(auto, using(crate::proofs::CloseSteps::levels))]
    pub(crate) fn open_levels(&self) -> usize
        ensures { result ≡ open_levels self.now }
    {
        let mut levels = 0;
        for frame in self.frames.iter() {
            levels += frame.levels();
        }
        levels
    }

    /// Takes the innermost frame off, where it binds at least so tightly.
    fn pop_binding(&mut self, least: u8) -> Option<Frame>
        ensures { MatchOption result
            ((self.new ≡ self.old) × IfSome (first self.old) (λ frame. binds frame least ≡ false))
            (λ frame. (self.old ≡ frame ∷ self.new) × (binds frame least ≡ true)) }
    {
        let binding = match self.top() {
            None => false,
            Some(frame) => frame.binds(least),
        };
        if binding { self.pop() } else { None }
    }

    /// Closes the operators that bind at least so tightly: the operand is that of the innermost, and what each
    /// makes of it is the operand of the next.
    #[tactic(auto, using(crate::proofs::CloseSteps::closing))]
    pub(crate) fn close(
        &mut self,
        alloc: Global,
        least: u8,
        operand: Expr,
    ) -> Result<Expr, AllocError>
        ensures { IfOk result (λ e. close self.old least operand ≡ holding self.new e) }
    {
        let mut tree = operand;
        while let Some(frame) = self.pop_binding(least) {
            tree = frame.over(alloc, tree)?;
        }
        Ok(tree)
    }
}
