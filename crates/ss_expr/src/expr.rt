ghost use Rattle.std.specs.Prelude.{◌≡◌, IfOk};

use crate::atom::Atom;
use crate::operators::{BinaryOp, UnaryOp};
use std::alloc::{AllocError, Global};
use std::marker::Model;

/// An expression over the fields of an event: a tree whose nodes know their places in the text.
///
/// A place counts the bytes before the first byte of the node's operator, or of its atom. Brackets have no node.
#[cycle(expr)]
#[derive(Drop)]
pub struct Expr {
    node: Node,
}

/// The root of an expression.
#[cycle(expr)]
#[derive(Drop)]
pub(crate) enum Node {
    /// An atom at its place.
    Leaf(u64, Atom),
    /// An operator, its place and its operand.
    Unary(UnaryOp, u64, Box<Expr>),
    /// An operator, its place, its left side and its right side.
    Binary(BinaryOp, u64, Box<Expr>, Box<Expr>),
}

impl Model for Expr {
    ghost use Rattle.ss_expr.specs.Tree.{Tree, count};

    ghost Value = { Tree };

    ghost use Rattle.ss_expr.specs.TreeCode.{tree_code};
    ghost use Rattle.ss_expr.specs.contracts.atom.Atom as atom;
    ghost use Rattle.ss_expr.specs.contracts.operators.UnaryOp as unary_op;
    ghost use Rattle.ss_expr.specs.contracts.operators.BinaryOp as binary_op;
    ghost use Rattle.std.specs.Coded.{codes};

    ghost coded = { tree_code
        (Prim.hlevel (codes, atom.the_row.coded, unary_op.the_row.coded, binary_op.the_row.coded)) };

    ghost use Rattle.ss_expr.specs.Node.{tree_of_node};

    ghost view = { λ e. tree_of_node e.node };

    ghost size = { count };

    ghost use Rattle.std.proofs.Common.{arith};

    ghost size_decreases = { λ a h. Prim.grind arith };
}

impl Expr {
    ghost use Rattle.ss_expr.specs.Tree.{leaf, unary, binary, place};
    ghost use Rattle.ss_expr.specs.Node.{tree_of_node};

    /// An atom at its place.
    pub(crate) fn leaf(at: u64, atom: Atom) -> Expr
        ensures { result ≡ leaf at atom }
    {
        Expr {
            node: Node::Leaf(at, atom),
        }
    }

    /// An operator in front of its operand.
    pub(crate) fn unary(
        alloc: Global,
        op: UnaryOp,
        at: u64,
        operand: Expr,
    ) -> Result<Expr, AllocError>
        ensures { IfOk result (λ e. e ≡ unary op at operand) }
    {
        let operand = Box::new(alloc, operand)?;
        Ok(Expr {
            node: Node::Unary(op, at, operand),
        })
    }

    /// An operator between its sides.
    pub(crate) fn binary(
        alloc: Global,
        op: BinaryOp,
        at: u64,
        left: Expr,
        right: Expr,
    ) -> Result<Expr, AllocError>
        ensures { IfOk result (λ e. e ≡ binary op at left right) }
    {
        let left = Box::new(alloc, left)?;
        let right = Box::new(alloc, right)?;
        Ok(Expr {
            node: Node::Binary(op, at, left, right),
        })
    }

    /// One level of the tree.
    pub(crate) fn node(&self) -> &Node
        ensures { tree_of_node result.now ≡ self.now }
    {
        &self.node
    }

    /// The place of the root.
    pub fn place(&self) -> u64
        ensures { result ≡ place self.now }
    {
        match &self.node {
            Node::Leaf(at, _) => *at,
            Node::Unary(_, at, _) => *at,
            Node::Binary(_, at, _, _) => *at,
        }
    }
    /// The same expression once more, in memory of its own.
    pub fn copied(&self, alloc: Global) -> Result<Expr, AllocError>
        ensures { IfOk result (λ e. e ≡ self.now) }
    {
        match &self.node {
            Node::Leaf(at, atom) => Ok(Expr::leaf(*at, *atom)),
            Node::Unary(op, at, operand) => {
                let operand = operand.copied(alloc)?;
                Expr::unary(alloc, *op, *at, operand)
            }
            Node::Binary(op, at, left, right) => {
                let left = left.copied(alloc)?;
                let right = right.copied(alloc)?;
                Expr::binary(alloc, *op, *at, left, right)
            }
        }
    }
}
