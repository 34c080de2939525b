//! Texts of values.
use std::alloc::Global;
use std::fmt::Debug;
use std::test::Fail;

/// A value as it is shown.
pub(crate) fn shown<T: Debug>(alloc: Global, value: &T) -> Result<Vec<u8>, Fail> {
    let text = format!(in alloc; "{value:?}")?;
    Ok(text.as_bytes().to_vec(alloc)?)
}

/// The number that a word is.
pub(crate) fn number(word: Option<&str>) -> Result<u64, Fail> {
    let word = word.ok_or("a number is missing")?;
    Ok(word.parse::<u64>()?)
}

/// The value that a word is.
pub(crate) fn value(word: Option<&str>) -> Result<i64, Fail> {
    let word = word.ok_or("a value is missing")?;
    Ok(word.parse::<i64>()?)
}
