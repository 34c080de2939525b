ghost use Rattle.std.specs.Prelude.{◌≡◌, ◌≤◌, length};
ghost use Rattle.std.specs.Char.{is_ascii_alphabetic, is_ascii_digit};
ghost use Rattle.std.specs.List.{prefix_len};
ghost use Rattle.ss_expr.specs.Tokens.{begins_equals, is_inside_quotes, number_at, number_of, quoted_at, sign_at};
ghost use Rattle.ss_expr.specs.Tokens.{token_at, compute, comparison, word_at, word_of};

use crate::atom::Atom;
use crate::fault::ExprWhy;
use crate::operators::{Arithmetic, BinaryOp, Comparison, Connective};
use crate::token::Token;
use ss_elem::Key;

const QUOTE: u8 = b'\'';

/// The token at the front of a text, as long as it can be, and how many bytes it has.
pub(crate) fn token_at(text: &[u8]) -> Result<(Token, usize), ExprWhy>
    ensures { result ≡ token_at text.now }
{
    match text {
        [] => Err(ExprWhy::BadToken),
        [first, rest @ ..] => {
            if first.is_ascii_alphabetic() {
                word_at(text)
            } else if first.is_ascii_digit() {
                number_at(text)
            } else if *first == QUOTE {
                quoted_at(rest)
            } else {
                sign_at(*first, begins_equals(rest))
            }
        }
    }
}

fn word_at(text: &[u8]) -> Result<(Token, usize), ExprWhy>
    ensures { result ≡ word_at text.now }
{
    let len = letters(text);
    match word_of(&text[..len]) {
        Some(word) => Ok((word, len)),
        None => Err(ExprWhy::BadToken),
    }
}

fn word_of(name: &[u8]) -> Option<Token>
    ensures { result ≡ word_of name.now }
{
    if name == b"start".as_slice() {
        Some(Token::Atom(Atom::Start))
    } else if name == b"end".as_slice() {
        Some(Token::Atom(Atom::End))
    } else if name == b"key".as_slice() {
        Some(Token::Atom(Atom::Subject))
    } else if name == b"a".as_slice() {
        Some(Token::Atom(Atom::A))
    } else if name == b"b".as_slice() {
        Some(Token::Atom(Atom::B))
    } else if name == b"c".as_slice() {
        Some(Token::Atom(Atom::C))
    } else if name == b"d".as_slice() {
        Some(Token::Atom(Atom::D))
    } else if name == b"and".as_slice() {
        Some(Token::Operator(BinaryOp::Connect(Connective::And)))
    } else if name == b"or".as_slice() {
        Some(Token::Operator(BinaryOp::Connect(Connective::Or)))
    } else if name == b"not".as_slice() {
        Some(Token::Not)
    } else {
        None
    }
}

fn number_at(text: &[u8]) -> Result<(Token, usize), ExprWhy>
    ensures { result ≡ number_at text.now }
{
    let len = digits(text);
    match number_of(&text[..len]) {
        Some(number) => Ok((Token::Atom(Atom::Number(number)), len)),
        None => Err(ExprWhy::BadNumber),
    }
}

/// The number that digits write, where 64 bits hold it.
fn number_of(digits: &[u8]) -> Option<i64>
    ensures { result ≡ number_of digits.now }
{
    let mut value = 0u64;
    'digits: for byte in digits {
        let digit = char::from(*byte).to_digit(10)?;
        let next = u128::from(value) * 10 + u128::from(digit);
        if next > i64::MAX as u128 {
            return None;
        }
        value = next as u64;
    }
    Some(value as i64)
}

fn quoted_at(rest: &[u8]) -> Result<(Token, usize), ExprWhy>
    ensures { result ≡ quoted_at rest.now }
{
    let len = inside_quotes(rest);
    if len == rest.len() {
        return Err(ExprWhy::BadToken);
    }
    match Key::of(&rest[..len]) {
        Ok(key) => Ok((Token::Atom(Atom::Text(key)), len + 2)),
        Err(_) => Err(ExprWhy::BadToken),
    }
}

fn begins_equals(text: &[u8]) -> bool
    ensures { result ≡ begins_equals text.now }
{
    match text {
        [] => false,
        [first, ..] => *first == b'=',
    }
}

/// The sign with this byte, where `equals` says that an `=` follows, which may belong to it.
fn sign_at(byte: u8, equals: bool) -> Result<(Token, usize), ExprWhy>
    ensures { result ≡ sign_at byte equals }
{
    match byte {
        b'(' => Ok((Token::Open, 1)),
        b')' => Ok((Token::Close, 1)),
        b'+' => computing(Arithmetic::Add),
        b'-' => computing(Arithmetic::Subtract),
        b'*' => computing(Arithmetic::Multiply),
        b'/' => computing(Arithmetic::Divide),
        b'%' => computing(Arithmetic::Remainder),
        b'=' => comparing(Comparison::Equal, 1),
        b'<' => if equals {
            comparing(Comparison::AtMost, 2)
        } else {
            comparing(Comparison::Less, 1)
        },
        b'>' => if equals {
            comparing(Comparison::AtLeast, 2)
        } else {
            comparing(Comparison::Greater, 1)
        },
        b'!' => if equals {
            comparing(Comparison::NotEqual, 2)
        } else {
            Err(ExprWhy::BadToken)
        },
        _ => Err(ExprWhy::BadToken),
    }
}

fn computing(op: Arithmetic) -> Result<(Token, usize), ExprWhy>
    ensures { result ≡ compute op }
{
    Ok((Token::Operator(BinaryOp::Compute(op)), 1))
}

fn comparing(op: Comparison, len: usize) -> Result<(Token, usize), ExprWhy>
    ensures { result ≡ comparison op len }
{
    Ok((Token::Operator(BinaryOp::Compare(op)), len))
}

fn letters(text: &[u8]) -> usize
    ensures run { result ≡ prefix_len is_ascii_alphabetic text.now }
    ensures within { result ≤ length text.now }
{
    text.iter().take_while(|b| b.is_ascii_alphabetic()).count()
}

fn digits(text: &[u8]) -> usize
    ensures run { result ≡ prefix_len is_ascii_digit text.now }
    ensures within { result ≤ length text.now }
{
    text.iter().take_while(|b| b.is_ascii_digit()).count()
}

fn inside_quotes(text: &[u8]) -> usize
    ensures run { result ≡ prefix_len is_inside_quotes text.now }
    ensures within { result ≤ length text.now }
{
    text.iter().take_while(|b| **b != QUOTE).count()
}
