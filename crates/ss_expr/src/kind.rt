ghost use Rattle.std.specs.Prelude.{◌≡◌, Some, None, MatchResult, OnOk, option_map, find};
ghost use Rattle.ss_expr.specs.Kinds.{kind_of, atom_kind, unary_kind, gives, takes, same_kind, misfit, own_misfit};
ghost use Rattle.ss_expr.specs.Kinds.{kind_fault, HasKind};
ghost use Rattle.ss_expr.specs.Tree.{unary, binary};

use crate::atom::Atom;
use crate::expr::{Expr, Node};
use crate::operators::{BinaryOp, UnaryOp};

/// What a value is.
#[derive(Clone, Copy, Debug, PartialEq, Eq)]
pub enum ValueKind {
    /// A whole number.
    Num,
    /// A text.
    Text,
    /// A truth.
    Truth,
}

/// The place, in bytes from 0, of the first node of an expression that doesn't fit.
#[derive(Clone, Copy, Debug, PartialEq, Eq)]
pub struct KindFault {
    /// The place of the node.
    pub at: u64,
}

/// Whether an expression gives a value of the kind that is wanted.
///
/// The nodes are looked at from the left side over the right side to the node itself. The fault names the
/// first whose operands are of other kinds than its operator takes, or the root where all of them fit and
/// the whole has another kind.
pub fn check_kind(e: &Expr, want: ValueKind) -> Result<(), KindFault>
    ensures ok { OnOk result (HasKind e.now want) }
    ensures exact { MatchResult result (λ _. kind_fault e.now want ≡ None) (λ f. kind_fault e.now want ≡ Some f.at) }
{
    if let Some(at) = first_misfit(e) {
        return Err(KindFault { at });
    }
    if kind(e) != want {
        return Err(KindFault { at: e.place() });
    }
    Ok(())
}

/// The kind of the value that an expression gives, which its root tells.
pub(crate) fn kind(e: &Expr) -> ValueKind
    ensures { result ≡ kind_of e.now }
{
    match e.node() {
        Node::Leaf(_, atom) => kind_of_atom(*atom),
        Node::Unary(op, _, _) => kind_of_unary(*op),
        Node::Binary(op, _, _, _) => kind_given(*op),
    }
}

fn kind_of_atom(atom: Atom) -> ValueKind
    ensures { result ≡ atom_kind atom }
{
    match atom {
        Atom::Text(_) | Atom::Subject => ValueKind::Text,
        Atom::Number(_) | Atom::Start | Atom::End => ValueKind::Num,
        Atom::A | Atom::B | Atom::C | Atom::D => ValueKind::Num,
    }
}

fn kind_of_unary(op: UnaryOp) -> ValueKind
    ensures { result ≡ unary_kind op }
{
    match op {
        UnaryOp::Not => ValueKind::Truth,
        UnaryOp::Negate => ValueKind::Num,
    }
}

fn kind_given(op: BinaryOp) -> ValueKind
    ensures { result ≡ gives op }
{
    match op {
        BinaryOp::Connect(_) | BinaryOp::Compare(_) => ValueKind::Truth,
        BinaryOp::Compute(_) => ValueKind::Num,
    }
}

fn may_stand_between(op: BinaryOp, left: ValueKind, right: ValueKind) -> bool
    ensures { result ≡ takes op left right }
{
    match op {
        BinaryOp::Connect(_) => left == ValueKind::Truth && right == ValueKind::Truth,
        BinaryOp::Compare(_) => left == right && left != ValueKind::Truth,
        BinaryOp::Compute(_) => left == ValueKind::Num && right == ValueKind::Num,
    }
}

/// The place of the first node whose operands don't fit: of the left side, else of the right side, else the
/// node itself.
#[tactic(auto, using(crate::proofs::Misfits::misfits))]
fn first_misfit(e: &Expr) -> Option<u64>
    ensures { result ≡ misfit e.now }
{
    match e.node() {
        Node::Leaf(_, _) => None,
        Node::Unary(op, at, operand) => first_misfit(operand).or(unary_misfit(*op, *at, operand)),
        Node::Binary(op, at, left, right) => {
            let sides = first_misfit(left).or(first_misfit(right));
            sides.or(binary_misfit(*op, *at, left, right))
        }
    }
}

fn unary_misfit(op: UnaryOp, at: u64, operand: &Expr) -> Option<u64>
    ensures { result ≡ own_misfit (unary op at operand.now) }
{
    (kind(operand) != kind_of_unary(op)).then_some(at)
}

fn binary_misfit(op: BinaryOp, at: u64, left: &Expr, right: &Expr) -> Option<u64>
    ensures { result ≡ own_misfit (binary op at left.now right.now) }
{
    (!may_stand_between(op, kind(left), kind(right))).then_some(at)
}
