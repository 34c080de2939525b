//! What a case wants of outputs.
use cases::{Case, Field, Stop, bad_words, one_word, text_of};
use std::alloc::Global;

/// What is wanted under a name.
#[derive(Drop)]
pub(crate) struct Text {
    pub(crate) name: String,
    pub(crate) bytes: Vec<u8>,
}

/// The texts that a case wants. Fields of one name add up, in their order; the lines of `acts` go to `-`.
pub(crate) fn texts_of(alloc: Global, case: &Case) -> Result<Vec<Text>, Stop> {
    let mut texts = Vec::new(alloc);
    for field in case.fields.iter() {
        match field.word.as_str() {
            "text" => {
                let name = one_word(alloc, field)?;
                add(alloc, &mut texts, name.as_str(), field)?;
            }
            "acts" => add(alloc, &mut texts, "-", field)?,
            _ => (),
        }
    }
    Ok(texts)
}

/// Puts a field's text behind what is wanted under a name.
fn add(alloc: Global, texts: &mut Vec<Text>, name: &str, field: &Field) -> Result<(), Stop> {
    let bytes = text_of(alloc, field)?;
    for text in texts.iter_mut() {
        if text.name.as_str() == name {
            text.bytes.extend_from_slice(bytes.as_slice())?;
            return Ok(());
        }
    }
    texts.push(Text {
        name: String::from_str(alloc, name)?,
        bytes,
    })?;
    Ok(())
}

/// What is wanted under a name, if anything is.
pub(crate) fn wanted_under<'a>(texts: &'a [Text], name: &str) -> Option<&'a [u8]> {
    for text in texts {
        if text.name.as_str() == name {
            return Some(text.bytes.as_slice());
        }
    }
    None
}

/// Appends the schedule of acts that stand beside their outcomes: `read s 0: got 0 0`.
pub(crate) fn put_schedule(
    alloc: Global,
    field: &Field,
    schedule: &mut Vec<u8>,
) -> Result<(), Stop> {
    let bytes = text_of(alloc, field)?;
    let Ok(text) = str::from_utf8(bytes.as_slice()) else {
        return Err(bad_words(field));
    };
    for line in text.lines() {
        match line.split_once(": ") {
            Some((act, _)) => schedule.extend_from_slice(act.as_bytes())?,
            None => return Err(bad_words(field)),
        }
        schedule.push(b'\n')?;
    }
    Ok(())
}
