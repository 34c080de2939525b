ghost use Rattle.std.specs.Prelude.{◌≡◌, ◌+◌, ◌<◌, Ok, IfOk, IfErr, length, drop};
ghost use Rattle.ss_expr.specs.Answers.{IsFaultOfReading, AnswersReading};
ghost use Rattle.ss_expr.specs.Expressions.{IsExpression, IsFault};
ghost use Rattle.ss_expr.specs.Reading.{expression_of, read_from, start};
ghost use Rattle.ss_expr.specs.Tree.{Tree};
ghost use Rattle.ss_expr.specs.Tokens.{is_blank, scan};

use crate::expr::Expr;
use crate::fault::{ExprFault, ExprWhy, ParseFault};
use crate::parser::Parser;
use crate::scanner::token_at;
use crate::token::Placed;
use std::alloc::Global;

const MOST_BYTES: usize = 256;

/// The expression with this text, of at most 256 bytes and 16 levels at a time, or the first place at which the
/// text is none.
#[tactic(auto, using(crate::proofs::Exact::exactness))]
pub fn parse(alloc: Global, text: &str) -> Result<Expr, ParseFault>
    ensures exact { AnswersReading result (expression_of text.now) }
    ensures expression { IfOk result (IsExpression text.now) }
    ensures only { (e : Tree) → IsExpression text.now e → AnswersReading result (Ok e) }
    ensures fault { IfErr result (IsFault text.now) }
{
    match read_text(alloc, text.as_bytes()) {
        Ok(e) => Ok(e),
        Err(fault) => Err(fault),
    }
}

fn read_text(alloc: Global, text: &[u8]) -> Result<Expr, ParseFault>
    ensures { AnswersReading result (expression_of text.now) }
{
    if text.len() > MOST_BYTES {
        let why = ExprWhy::TooLong {
            len: text.len() as u64,
        };
        return Err(ParseFault::At(ExprFault { at: 0, why }));
    }
    match read(alloc, text) {
        Ok(e) => Ok(e),
        Err(fault) => Err(fault),
    }
}

fn read(alloc: Global, text: &[u8]) -> Result<Expr, ParseFault>
    ensures { AnswersReading result (read_from (length text.now) (scan text.now 0 0) start) }
{
    let mut parser = Parser::new(alloc);
    // How many bytes still belong to the token that was taken last.
    let mut taken = 0;
    for at in 0..text.len() {
        taken = match take_byte(alloc, &mut parser, text, at, taken) {
            Ok(left) => left,
            Err(fault) => return Err(fault),
        };
    }
    parser.finish(alloc, text.len() as u64)
}

/// Takes the token that begins at a byte, unless the byte belongs to the token before it or is a blank, and
/// answers how many bytes behind it belong to the token.
fn take_byte(
    alloc: Global,
    parser: &mut Parser,
    text: &[u8],
    at: usize,
    taken: usize,
) -> Result<usize, ParseFault>
    requires { at < length text.now }
    ensures goes_on { IfOk result (λ left. read_from (length text.now) (scan (drop at text.now) at taken) parser.old
        ≡ read_from (length text.now) (scan (drop (at + 1) text.now) (at + 1) left) parser.new) }
    ensures refused { IfErr result (λ e. IsFaultOfReading e
        (read_from (length text.now) (scan (drop at text.now) at taken) parser.old)) }
{
    if taken > 0 {
        return Ok(taken - 1);
    }
    if is_blank(text[at]) {
        return Ok(0);
    }
    let place = at as u64;
    match token_at(&text[at..]) {
        Ok((token, len)) => match parser.take(alloc, Placed { at: place, token }) {
            Ok(()) => Ok(len.saturating_sub(1)),
            Err(fault) => Err(fault),
        },
        Err(why) => Err(ParseFault::At(ExprFault { at: place, why })),
    }
}

fn is_blank(byte: u8) -> bool
    ensures { result ≡ is_blank byte }
{
    byte == b' ' || byte == b'\t'
}
