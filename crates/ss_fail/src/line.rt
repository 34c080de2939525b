ghost use Rattle.std.specs.Prelude.{◌≡◌, ◌==◌, List, ℕ, map, IfOk, if◌then◌else◌};
ghost use Rattle.std.specs.List.{slice_split};
ghost use Rattle.std.specs.Str.Lines.{strip_carriage_return};
ghost use Rattle.ss_fail.specs.Lines as spec;

use std::alloc::{AllocError, Global};

/// A line that says something.
#[derive(Drop)]
pub(crate) struct Line<'a> {
    /// Its number, counted from 1.
    pub(crate) number: u64,
    /// Its words, at least one.
    pub(crate) words: Vec<&'a [u8]>,
}

/// What stands between newlines.
pub(crate) fn parts(alloc: Global, bytes: &[u8]) -> Result<Vec<&[u8]>, AllocError>
    ensures { IfOk result (λ v. map (λ part. part.now) v.items ≡ slice_split (λ b. b == 10) bytes.now) }
{
    bytes.split(|byte| *byte == b'\n').collect(alloc)
}

/// The line of what stands before a newline: without the carriage return at its end.
pub(crate) fn line_of(part: &[u8]) -> &[u8]
    ensures { result.now ≡ strip_carriage_return part.now }
{
    match part {
        [line @ .., b'\r'] => line,
        _ => part,
    }
}

/// What stands between spaces and tabs in a line.
pub(crate) fn words(alloc: Global, line: &[u8]) -> Result<Vec<&[u8]>, AllocError>
    ensures { IfOk result (λ v. map (λ word. word.now) v.items ≡ spec.words line.now) }
{
    let mut words = Vec::new(alloc);
    let between = between_blanks(alloc, line)?;
    for text in &between {
        if !text.is_empty() {
            words.push(*text)?;
        }
    }
    Ok(words)
}

fn between_blanks(alloc: Global, line: &[u8]) -> Result<Vec<&[u8]>, AllocError>
    ensures { IfOk result (λ v. map (λ text. text.now) v.items ≡ slice_split spec.is_blank line.now) }
{
    line.split(|byte| *byte == b' ' || *byte == b'\t')
        .collect(alloc)
}
