ghost use Rattle.std.specs.Prelude.{◌≡◌, ◌<◌, ◌++◌, length, map, option_map, option_to_list, IfOk, OnOk};
ghost use Rattle.std.specs.Str.Lines.{lines, lines_of_parts};
ghost use Rattle.ss_fail.specs.Lines as spec;
ghost use Rattle.ss_fail.specs.SaidLine.{line_in, said};

use crate::line::{Line, line_of, parts, words};
use std::alloc::{AllocError, Global};

/// The lines that say something.
pub(crate) fn said_lines(alloc: Global, bytes: &[u8]) -> Result<Vec<Line<'_>>, AllocError>
    ensures { IfOk result (λ v. map said v.items ≡ spec.said_lines 1 (lines bytes.now)) }
{
    let parts = parts(alloc, bytes)?;
    lines_in(alloc, &parts)
}

fn lines_in<'a>(alloc: Global, parts: &[&'a [u8]]) -> Result<Vec<Line<'a>>, AllocError>
    ensures { IfOk result (λ v.
        map said v.items ≡ spec.said_lines 1 (lines_of_parts (map (λ part. part.now) parts.now))) }
{
    let mut said = Vec::new(alloc);
    for place in 0..parts.len() {
        let line = line_at(parts, place);
        let found = said_line(alloc, place as u64 + 1, line)?;
        push_found(&mut said, found)?;
    }
    Ok(said)
}

/// Appends the line, if there is one.
fn push_found<'a>(lines: &mut Vec<Line<'a>>, found: Option<Line<'a>>) -> Result<(), AllocError>
    ensures { OnOk result (map said lines.new.items ≡
        map said lines.old.items ++ option_to_list (option_map said found.entry)) }
{
    match found {
        Some(line) => lines.push(line)?,
        None => (),
    }
    Ok(())
}

/// The line of the part at this place.
fn line_at<'a>(parts: &[&'a [u8]], place: usize) -> &'a [u8]
    requires { place < length parts.now }
    ensures { result.now ≡ line_in (map (λ part. part.now) parts.now) place }
{
    if place + 1 < parts.len() {
        line_of(parts[place])
    } else {
        parts[place]
    }
}

/// The line with its words, where it says something.
fn said_line(alloc: Global, number: u64, line: &[u8]) -> Result<Option<Line<'_>>, AllocError>
    ensures { IfOk result (λ found. option_map said found ≡ spec.said_line number line.now) }
{
    let words = words(alloc, line)?;
    if words.is_empty() || is_comment(line) {
        Ok(None)
    } else {
        Ok(Some(Line { number, words }))
    }
}

fn is_comment(line: &[u8]) -> bool
    ensures { result ≡ spec.is_comment line.now }
{
    match line {
        [b'#', ..] => true,
        [] | [_, ..] => false,
    }
}
