//! Expressions over an event: their text read as a tree, the kinds of a tree, and its value on an event.
#![tactic(auto)]

mod atom;
mod evaluation;
mod expr;
mod fault;
mod frame;
mod kind;
mod laws;
mod operators;
mod parser;
mod reading;
mod scanner;
mod selection;
mod stack;
mod stream_operator;
mod token;
mod value;
mod worked_operators;

pub use evaluation::eval;
pub use expr::Expr;
pub use fault::{ExprFault, ExprWhy, ParseFault};
pub use kind::{KindFault, ValueKind, check_kind};
pub use laws::{brackets_keep_the_tree, one_expression, printed_is_read};
pub use reading::parse;
pub use selection::{row_given, select};
pub use stream_operator::{Agg, Field, Spec};
pub use value::Value;
pub use worked_operators::operator_examples;
