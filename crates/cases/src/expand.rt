//! What a field stands for, once its escapes are expanded.
use crate::case::Field;
use crate::escapes::{Place, put_bytes};
use crate::fault::{CasesFault, CasesWhy, bad};
use crate::group::{number_at, number_of};
use crate::repeat::Repeat;
use std::alloc::Global;

/// What stands behind the field's word.
pub fn rest_of(alloc: Global, field: &Field) -> Result<Vec<u8>, CasesFault> {
    let mut out = Vec::new(alloc);
    put_text(&mut out, field.rest.as_str(), 0, field.line)?;
    Ok(out)
}

/// The words behind the field's word, which spaces part. A space within a word is `\s`, a word without a byte `\e`;
/// spaces between braces part no words.
pub fn words_of(alloc: Global, field: &Field) -> Result<Vec<String>, CasesFault> {
    let mut words = Vec::new(alloc);
    let mut word = String::new(alloc);
    for part in field.rest.as_str().split(" ") {
        word.push_str(part)?;
        if is_open(word.as_str()) {
            word.push(' ')?;
        } else {
            put_word(alloc, &mut words, word.as_str(), field.line)?;
            word = String::new(alloc);
        }
    }
    put_word(alloc, &mut words, word.as_str(), field.line)?;
    Ok(words)
}

/// Whether the last brace of a text is not closed.
fn is_open(text: &str) -> bool {
    match text.rsplit_once("\\{") {
        Some((_, group)) => !group.contains("}"),
        None => false,
    }
}

/// Appends a word, if it has a byte before its escapes are expanded.
fn put_word(
    alloc: Global,
    words: &mut Vec<String>,
    word: &str,
    line: u64,
) -> Result<(), CasesFault> {
    if !word.is_empty() {
        let mut bytes = Vec::new(alloc);
        put_text(&mut bytes, word, 0, line)?;
        words.push(string_of(alloc, bytes.as_slice(), line)?)?;
    }
    Ok(())
}

/// The bytes of the field's lines, each with its newline, unless a backslash ends it.
pub fn text_of(alloc: Global, field: &Field) -> Result<Vec<u8>, CasesFault> {
    let mut out = Vec::new(alloc);
    let mut repeat = None;
    for line in field.lines.as_str().lines() {
        repeat = take_line(alloc, &mut out, repeat, line, field.line)?;
    }
    match repeat {
        Some(_) => Err(bad(field.line, CasesWhy::BadRepeat)),
        None => Ok(out),
    }
}

/// Takes a line, in a repeat or out of it. Gives the repeat that goes on behind it.
fn take_line(
    alloc: Global,
    out: &mut Vec<u8>,
    repeat: Option<Repeat>,
    text: &str,
    line: u64,
) -> Result<Option<Repeat>, CasesFault> {
    match repeat {
        None => match text.strip_prefix("\\repeat ") {
            Some(count) => Ok(Some(Repeat::new(alloc, count, line)?)),
            None => {
                put_line(out, text, 0, line)?;
                Ok(None)
            }
        },
        Some(repeat) if text == "\\end" => {
            put_turns(out, &repeat, line)?;
            Ok(None)
        }
        Some(mut repeat) => {
            repeat.lines.push_str(text)?;
            repeat.lines.push_str("\n")?;
            Ok(Some(repeat))
        }
    }
}

/// Appends the lines of a repeat for each of its turns.
fn put_turns(out: &mut Vec<u8>, repeat: &Repeat, line: u64) -> Result<(), CasesFault> {
    for turn in 0..repeat.count {
        for text in repeat.lines.as_str().lines() {
            put_at_turn(out, text, turn, line)?;
        }
    }
    Ok(())
}

/// Appends a line at a turn. One that begins with `\every N ` stands behind each N turns.
fn put_at_turn(out: &mut Vec<u8>, text: &str, turn: u64, line: u64) -> Result<(), CasesFault> {
    match text.strip_prefix("\\every ") {
        None => put_line(out, text, turn, line),
        Some(rest) => match rest.split_once(" ") {
            Some((every, text)) if is_due(every, turn, line)? => put_line(out, text, turn, line),
            Some(_) => Ok(()),
            None => Err(bad(line, CasesWhy::BadRepeat)),
        },
    }
}

/// Whether the turns so far, with this one, are a multiple of a number.
fn is_due(every: &str, turn: u64, line: u64) -> Result<bool, CasesFault> {
    let every = number_of(every).ok_or(bad(line, CasesWhy::BadNumber))?;
    Ok(turn.saturating_add(1).checked_rem(every) == Some(0))
}

/// Appends a line and its newline.
fn put_line(out: &mut Vec<u8>, text: &str, turn: u64, line: u64) -> Result<(), CasesFault> {
    match put_text(out, text, turn, line)? {
        Place::Plain => {
            out.push(b'\n')?;
            Ok(())
        }
        Place::Escape => Ok(()),
        Place::High | Place::Low(_) => Err(bad(line, CasesWhy::BadEscape)),
    }
}

/// Appends what a text stands for, groups in braces among it.
fn put_text(out: &mut Vec<u8>, text: &str, turn: u64, line: u64) -> Result<Place, CasesFault> {
    let mut place = Place::Plain;
    let mut first = true;
    for piece in text.split("\\{") {
        let plain = if first {
            piece
        } else {
            put_group(out, piece, turn, line)?
        };
        place = put_bytes(out, plain, line)?;
        first = false;
    }
    Ok(place)
}

/// Appends what the group at the head of a text stands for. Gives the text behind it.
fn put_group<'a>(
    out: &mut Vec<u8>,
    text: &'a str,
    turn: u64,
    line: u64,
) -> Result<&'a str, CasesFault> {
    let unclosed = bad(line, CasesWhy::BadGroup);
    let (group, behind) = text.split_once("}").ok_or(unclosed)?;
    match group.split_once(" of ") {
        Some((count, text)) => put_copies(out, count, text, line)?,
        None => put_number(out, group, turn, line)?,
    }
    Ok(behind)
}

/// Appends a text so many times.
fn put_copies(out: &mut Vec<u8>, count: &str, text: &str, line: u64) -> Result<(), CasesFault> {
    let count = number_of(count).ok_or(bad(line, CasesWhy::BadNumber))?;
    let mut once = Vec::new(*out.allocator());
    put_bytes(&mut once, text, line)?;
    for _ in 0..count {
        out.extend_from_slice(once.as_slice())?;
    }
    Ok(())
}

/// Appends the number that a group says at a turn.
fn put_number(out: &mut Vec<u8>, group: &str, turn: u64, line: u64) -> Result<(), CasesFault> {
    let number = number_at(group, turn).ok_or(bad(line, CasesWhy::BadNumber))?;
    let text = format!(in *out.allocator(); "{number}")?;
    out.extend_from_slice(text.as_bytes())?;
    Ok(())
}

/// The text of bytes.
fn string_of(alloc: Global, bytes: &[u8], line: u64) -> Result<String, CasesFault> {
    match str::from_utf8(bytes) {
        Ok(text) => Ok(String::from_str(alloc, text)?),
        Err(_) => Err(bad(line, CasesWhy::NoText)),
    }
}
