//! Escapes that stand for one byte, or for none.
use crate::fault::{CasesFault, CasesWhy, bad};

/// Where in a text the expansion is.
#[derive(Clone, Copy)]
pub(crate) enum Place {
    Plain,
    /// Behind a backslash.
    Escape,
    /// Behind `\x`.
    High,
    /// Behind the first digit of `\x`.
    Low(u8),
}

/// Appends the bytes that a text stands for. Gives where it ends: at `Place::Escape` behind a lone backslash.
pub(crate) fn put_bytes(out: &mut Vec<u8>, text: &str, line: u64) -> Result<Place, CasesFault> {
    let mut place = Place::Plain;
    for byte in text.as_bytes() {
        place = match place {
            Place::Plain => put_plain(out, *byte)?,
            Place::Escape => put_escaped(out, *byte, line)?,
            Place::High => Place::Low(digit_of(*byte, line)?),
            Place::Low(high) => put_low(out, high, *byte, line)?,
        };
    }
    Ok(place)
}

/// Appends a byte that stands for itself, if it does.
fn put_plain(out: &mut Vec<u8>, byte: u8) -> Result<Place, CasesFault> {
    if byte == b'\\' {
        return Ok(Place::Escape);
    }
    out.push(byte)?;
    Ok(Place::Plain)
}

/// Appends what a letter behind a backslash stands for.
fn put_escaped(out: &mut Vec<u8>, letter: u8, line: u64) -> Result<Place, CasesFault> {
    match letter {
        b'\\' => out.push(b'\\')?,
        b's' => out.push(b' ')?,
        b'n' => out.push(b'\n')?,
        b'c' => out.push(b'\r')?,
        b't' => out.push(b'\t')?,
        b'e' => (),
        b'x' => return Ok(Place::High),
        _ => return Err(bad(line, CasesWhy::BadEscape)),
    }
    Ok(Place::Plain)
}

/// Appends the byte of two digits.
fn put_low(out: &mut Vec<u8>, high: u8, low: u8, line: u64) -> Result<Place, CasesFault> {
    let low = digit_of(low, line)?;
    out.push(high.wrapping_mul(16).wrapping_add(low))?;
    Ok(Place::Plain)
}

/// The number of a hexadecimal digit.
fn digit_of(byte: u8, line: u64) -> Result<u8, CasesFault> {
    match byte {
        b'0'..=b'9' => Ok(byte - b'0'),
        b'a'..=b'f' => Ok(byte - b'a' + 10),
        _ => Err(bad(line, CasesWhy::BadEscape)),
    }
}
