//! Cases and their fields.
use std::alloc::{AllocError, Global};

/// A field: a word, what stands behind it in its line, and the lines below it that belong to it.
#[derive(Drop)]
pub struct Field {
    /// Where it stands in its file, from 1.
    pub line: u64,
    pub word: String,
    /// What stands behind the word, with its escapes.
    pub rest: String,
    /// Its lines, without their four spaces, with their escapes, and with a newline behind each.
    pub lines: String,
}

/// A case: a name and fields. The fields of what it is given stand where it names that.
#[derive(Drop)]
pub struct Case {
    pub name: String,
    pub fields: Vec<Field>,
}

impl Field {
    /// A field without lines.
    pub(crate) fn new(
        alloc: Global,
        line: u64,
        word: &str,
        rest: &str,
    ) -> Result<Field, AllocError> {
        Ok(Field {
            line,
            word: String::from_str(alloc, word)?,
            rest: String::from_str(alloc, rest)?,
            lines: String::new(alloc),
        })
    }
}

/// The fields once more.
pub(crate) fn copies(alloc: Global, fields: &[Field]) -> Result<Vec<Field>, AllocError> {
    let mut copies = Vec::new(alloc);
    for field in fields {
        let mut copy = Field::new(alloc, field.line, field.word.as_str(), field.rest.as_str())?;
        copy.lines.push_str(field.lines.as_str())?;
        copies.push(copy)?;
    }
    Ok(copies)
}
