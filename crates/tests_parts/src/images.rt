//! Images of windows, of joins and of sessions, from the words that say their entries.
use crate::bytes::word;
use crate::elements::bound_at;
use crate::sessions::session_answer;
use crate::spec::{has_whole_hops, settings_of};
use crate::told::{number, value};
use ss_join::Join;
use ss_session::Except;
use ss_window::Window;
use std::alloc::Global;
use std::test::Fail;

/// Whether the bytes of these words are taken as an image and put again, or the place of the first entry at fault.
pub(crate) fn read(
    alloc: Global,
    operator: &str,
    bounds: &[u64],
    words: &[String],
) -> Result<Vec<u8>, Fail> {
    let answer = if operator.starts_with("session ") {
        let low = *bounds.first().ok_or("a bound is missing")?;
        session_answer(alloc, operator, low, words)?
    } else if operator == "join" || operator == "except" {
        let bytes = join_bytes(alloc, words)?;
        let mut both = [0; 8];
        for (place, bound) in both.iter_mut().zip(bounds) {
            *place = *bound;
        }
        if operator == "join" {
            join_answer(alloc, both, &bytes)?
        } else {
            except_answer(alloc, both, &bytes)?
        }
    } else {
        let bytes = window_bytes(alloc, words)?;
        let low = *bounds.first().ok_or("a bound is missing")?;
        window_answer(alloc, operator, low, &bytes)?
    };
    Ok(answer.as_bytes().to_vec(alloc)?)
}

fn window_answer(alloc: Global, operator: &str, low: u64, bytes: &[u8]) -> Result<String, Fail> {
    let s = settings_of(operator)?;
    let low = bound_at(low)?;
    if !has_whole_hops(s) {
        return Err(Fail::new("no window"));
    }
    match Window::of_image(alloc, s.size, s.hop, s.agg, s.of, low, bytes) {
        Ok(window) if window.held() < 1 << 25 => {
            let mut again = Vec::new(alloc);
            window.image(&mut again)?;
            answer_of(alloc, &again, bytes)
        }
        Ok(_) => Err(Fail::new("too many entries")),
        Err(ss_window::ImageFault::At { at }) => Ok(format!(in alloc; "at {at}")?),
        Err(ss_window::ImageFault::Memory) => Err(Fail::new("memory")),
    }
}

fn join_answer(alloc: Global, bounds: [u64; 8], bytes: &[u8]) -> Result<String, Fail> {
    match Join::of_image(alloc, bounds, bytes) {
        Ok(join) if join.held() < 1 << 25 => {
            let mut again = Vec::new(alloc);
            join.image(&mut again)?;
            answer_of(alloc, &again, bytes)
        }
        Ok(_) => Err(Fail::new("too many rows")),
        Err(ss_join::ImageFault::At { at }) => Ok(format!(in alloc; "at {at}")?),
        Err(ss_join::ImageFault::Memory) => Err(Fail::new("memory")),
    }
}

fn except_answer(alloc: Global, bounds: [u64; 8], bytes: &[u8]) -> Result<String, Fail> {
    match Except::of_image(alloc, bounds, bytes) {
        Ok(except) if except.held() < 1 << 25 => {
            let mut again = Vec::new(alloc);
            except.image(&mut again)?;
            answer_of(alloc, &again, bytes)
        }
        Ok(_) => Err(Fail::new("too many rows")),
        Err(ss_session::ImageFault::At { at }) => Ok(format!(in alloc; "at {at}")?),
        Err(ss_session::ImageFault::Memory) => Err(Fail::new("memory")),
    }
}

pub(crate) fn answer_of(alloc: Global, again: &[u8], bytes: &[u8]) -> Result<String, Fail> {
    let answer = if again == bytes {
        "taken"
    } else {
        "put as another"
    };
    Ok(String::from_str(alloc, answer)?)
}

/// The bytes of the image of a window: the count of entries, and of each END,KEY,VALUE,ROWS.
fn window_bytes(alloc: Global, words: &[String]) -> Result<Vec<u8>, Fail> {
    let mut bytes = Vec::new(alloc);
    bytes.extend_from_slice(&count(words, 0)?)?;
    for entry in words.iter().skip(1) {
        let (end, rest) = parted(entry.as_str().split_once(","))?;
        let (rest, rows) = parted(rest.rsplit_once(","))?;
        let (key, total) = parted(rest.rsplit_once(","))?;
        bytes.extend_from_slice(&number(Some(end))?.to_be_bytes())?;
        put_key(&mut bytes, key)?;
        bytes.extend_from_slice(&total.parse::<i128>()?.cast_unsigned().to_be_bytes())?;
        bytes.extend_from_slice(&number(Some(rows))?.to_be_bytes())?;
    }
    Ok(bytes)
}

/// The bytes of the image of a join: the counts of left and right rows, and of each START,END,KEY,A,B, behind which ;C,D
/// stand where it is wide.
fn join_bytes(alloc: Global, words: &[String]) -> Result<Vec<u8>, Fail> {
    let mut bytes = Vec::new(alloc);
    bytes.extend_from_slice(&count(words, 0)?)?;
    bytes.extend_from_slice(&count(words, 1)?)?;
    for row in words.iter().skip(2) {
        let (first, last) = match row.as_str().split_once(";") {
            Some((first, last)) => (first, Some(last)),
            None => (row.as_str(), None),
        };
        let (start, rest) = parted(first.split_once(","))?;
        let (end, rest) = parted(rest.split_once(","))?;
        let (rest, b) = parted(rest.rsplit_once(","))?;
        let (key, a) = parted(rest.rsplit_once(","))?;
        bytes.extend_from_slice(&number(Some(start))?.to_be_bytes())?;
        bytes.extend_from_slice(&number(Some(end))?.to_be_bytes())?;
        put_key(&mut bytes, key)?;
        put_values(&mut bytes, a, b)?;
        if let Some((c, d)) = last.and_then(|last| last.split_once(",")) {
            put_values(&mut bytes, c, d)?;
        }
    }
    Ok(bytes)
}

fn put_values(bytes: &mut Vec<u8>, first: &str, second: &str) -> Result<(), Fail> {
    for text in [first, second] {
        bytes.extend_from_slice(&value(Some(text))?.cast_unsigned().to_be_bytes())?;
    }
    Ok(())
}

pub(crate) fn count(words: &[String], place: usize) -> Result<[u8; 4], Fail> {
    Ok(word(words, place)?.parse::<u32>()?.to_be_bytes())
}

pub(crate) fn parted<'a>(parts: Option<(&'a str, &'a str)>) -> Result<(&'a str, &'a str), Fail> {
    Ok(parts.ok_or("a comma is missing")?)
}

/// The bytes of a key, and zeros up to sixteen.
pub(crate) fn put_key(bytes: &mut Vec<u8>, key: &str) -> Result<(), Fail> {
    bytes.extend_from_slice(key.as_bytes())?;
    for _ in key.len()..16 {
        bytes.push(0)?;
    }
    Ok(())
}
