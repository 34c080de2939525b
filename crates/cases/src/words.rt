//! Words and numbers of fields.
use crate::case::Field;
use crate::expand::words_of;
use crate::stop::{Stop, bad_words};
use std::alloc::Global;

/// The one word of a field.
pub fn one_word(alloc: Global, field: &Field) -> Result<String, Stop> {
    let mut words = words_of(alloc, field)?;
    match (words.pop(), words.is_empty()) {
        (Some(word), true) => Ok(word),
        (_, _) => Err(bad_words(field)),
    }
}

/// The number that a word is.
pub fn number_of(field: &Field, word: &str) -> Result<u64, Stop> {
    match word.parse::<u64>() {
        Ok(number) => Ok(number),
        Err(_) => Err(bad_words(field)),
    }
}

/// Whether a word is among these.
pub fn is_among(words: &[String], name: &str) -> bool {
    words.iter().any(|word| word.as_str() == name)
}
