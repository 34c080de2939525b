ghost use Rattle.std.specs.Prelude.{◌≡◌, None, true, false};
ghost use Rattle.std.specs.Ordering.{int_cmp};
ghost use Rattle.ss_expr.specs.Kinds.{atom_kind, kind_of, misfit, takes};
ghost use Rattle.ss_expr.specs.Values.{arithmetic, atom_value, binary_value, connects, holds, value_kind, value_of};
ghost use Rattle.ss_expr.specs.Values.{HasShortTimes};

use crate::atom::Atom;
use crate::expr::{Expr, Node};
use crate::kind::{ValueKind, kind};
use crate::operators::{Arithmetic, BinaryOp, Comparison, Connective, UnaryOp};
use crate::value::Value;
use ss_elem::{Event, Key};
use std::cmp::Ordering;

/// What an expression is worth on an event.
///
/// Whole numbers are computed exactly, and each result of arithmetic is then the nearest number of 64 bits.
pub fn eval(e: &Expr, x: &Event) -> Value
    requires fitting { misfit e.now ≡ None }
    requires times { HasShortTimes x.now }
    ensures value { result ≡ value_of e.now x.now }
    ensures kind { value_kind result ≡ kind_of e.now }
{
    match kind(e) {
        ValueKind::Num => Value::Num(number(e, x)),
        ValueKind::Text => Value::Text(text(e, x)),
        ValueKind::Truth => Value::Truth(truth(e, x)),
    }
}

#[tactic(auto, using(crate::proofs::Misfits::fitting))]
pub(crate) fn number(e: &Expr, x: &Event) -> i64
    requires fitting { misfit e.now ≡ None }
    requires number { kind_of e.now ≡ ValueKind.Num }
    requires times { HasShortTimes x.now }
    ensures { value_of e.now x.now ≡ Value.Num result }
{
    match e.node() {
        Node::Leaf(_, atom) => number_of_atom(*atom, x),
        Node::Unary(op, _, operand) => match op {
            UnaryOp::Not => unreachable!(),
            UnaryOp::Negate => number(operand, x).saturating_neg(),
        },
        Node::Binary(op, _, left, right) => match op {
            BinaryOp::Connect(_) | BinaryOp::Compare(_) => unreachable!(),
            BinaryOp::Compute(op) => compute(*op, number(left, x), number(right, x)),
        },
    }
}

#[tactic(auto, using(crate::proofs::Misfits::fitting))]
fn text(e: &Expr, x: &Event) -> Key
    requires { kind_of e.now ≡ ValueKind.Text }
    ensures { value_of e.now x.now ≡ Value.Text result }
{
    match e.node() {
        Node::Leaf(_, atom) => text_of_atom(*atom, x),
        Node::Unary(_, _, _) | Node::Binary(_, _, _, _) => unreachable!(),
    }
}

#[tactic(auto, using(crate::proofs::Misfits::fitting))]
pub(crate) fn truth(e: &Expr, x: &Event) -> bool
    requires fitting { misfit e.now ≡ None }
    requires truth { kind_of e.now ≡ ValueKind.Truth }
    requires times { HasShortTimes x.now }
    ensures { value_of e.now x.now ≡ Value.Truth result }
{
    match e.node() {
        Node::Leaf(_, _) => unreachable!(),
        Node::Unary(op, _, operand) => match op {
            UnaryOp::Not => !truth(operand, x),
            UnaryOp::Negate => unreachable!(),
        },
        Node::Binary(op, _, left, right) => match op {
            BinaryOp::Connect(Connective::Or) => truth(left, x) || truth(right, x),
            BinaryOp::Connect(Connective::And) => truth(left, x) && truth(right, x),
            BinaryOp::Compare(op) => compare(*op, left, right, x),
            BinaryOp::Compute(_) => unreachable!(),
        },
    }
}

fn compare(op: Comparison, left: &Expr, right: &Expr, x: &Event) -> bool
    requires left { misfit left.now ≡ None }
    requires right { misfit right.now ≡ None }
    requires alike { takes (BinaryOp.Compare op) (kind_of left.now) (kind_of right.now) ≡ true }
    requires times { HasShortTimes x.now }
    ensures { binary_value (BinaryOp.Compare op) (value_of left.now x.now) (value_of right.now x.now)
        ≡ Value.Truth result }
{
    match kind(left) {
        ValueKind::Num => does_hold(op, number(left, x).cmp(&number(right, x))),
        ValueKind::Text => does_hold(op, text(left, x).cmp(&text(right, x))),
        ValueKind::Truth => unreachable!(),
    }
}

fn number_of_atom(atom: Atom, x: &Event) -> i64
    requires number { atom_kind atom ≡ ValueKind.Num }
    requires times { HasShortTimes x.now }
    ensures { atom_value atom x.now ≡ Value.Num result }
{
    match atom {
        Atom::Number(number) => number,
        Atom::Start => x.start as i64,
        Atom::End => x.end as i64,
        Atom::A => x.a,
        Atom::B => x.b,
        Atom::C => x.c,
        Atom::D => x.d,
        Atom::Text(_) | Atom::Subject => unreachable!(),
    }
}

fn text_of_atom(atom: Atom, x: &Event) -> Key
    requires { atom_kind atom ≡ ValueKind.Text }
    ensures { atom_value atom x.now ≡ Value.Text result }
{
    match atom {
        Atom::Text(text) => text,
        Atom::Subject => x.key,
        Atom::Number(_) | Atom::Start | Atom::End => unreachable!(),
        Atom::A | Atom::B | Atom::C | Atom::D => unreachable!(),
    }
}

fn compute(op: Arithmetic, left: i64, right: i64) -> i64
    ensures { result ≡ arithmetic op left right }
{
    match op {
        Arithmetic::Add => left.saturating_add(right),
        Arithmetic::Subtract => left.saturating_sub(right),
        Arithmetic::Multiply => left.saturating_mul(right),
        Arithmetic::Divide => if right == 0 {
            0
        } else {
            left.saturating_div(right)
        },
        Arithmetic::Remainder => if right == 0 {
            0
        } else {
            left.wrapping_rem(right)
        },
    }
}

fn does_hold(op: Comparison, order: Ordering) -> bool
    ensures { result ≡ holds op order }
{
    match op {
        Comparison::Equal => order.is_eq(),
        Comparison::NotEqual => order.is_ne(),
        Comparison::Less => order.is_lt(),
        Comparison::AtMost => order.is_le(),
        Comparison::Greater => order.is_gt(),
        Comparison::AtLeast => order.is_ge(),
    }
}
