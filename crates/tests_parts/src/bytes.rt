//! Records and frames, and changes of their bytes.
use crate::elements::element_of;
use crate::lines::lines_of;
use crate::told::{number, shown};
use sha2::{Digest, Sha256};
use ss_codec::{
    CodecFault, Frame, FrameFault, Image, get_element, get_frame, put_element, put_frame,
};
use ss_elem::{Bound, valid_next};
use std::alloc::Global;
use std::test::Fail;

/// A word of a field.
pub(crate) fn word(words: &[String], place: usize) -> Result<&str, Fail> {
    match words.get(place) {
        Some(word) => Ok(word.as_str()),
        None => Err(Fail::new("a word is missing")),
    }
}

/// The number of a vertex, and one more.
fn vertex_and_number(words: &[String]) -> Result<(u32, u64), Fail> {
    Ok((
        word(words, 0)?.parse::<u32>()?,
        number(Some(word(words, 1)?))?,
    ))
}

/// The record of the vertex, the number and the element that the words say.
pub(crate) fn record(alloc: Global, words: &[String]) -> Result<Vec<u8>, Fail> {
    let (v, n) = vertex_and_number(words)?;
    let element = element_of(word(words, 2)?)?;
    let mut bytes = Vec::new(alloc);
    valid_next(Bound::ZERO, &element)?;
    put_element(v, n, &element, &mut bytes)?;
    Ok(bytes)
}

/// The code of the frame that the words say.
pub(crate) fn frame(alloc: Global, words: &[String]) -> Result<Vec<u8>, Fail> {
    let (pos, width) = up_to_8(word(words, 4)?)?;
    let (bounds, _) = up_to_8(word(words, 5)?)?;
    let frame = Frame {
        op: word(words, 0)?.parse::<u8>()?,
        v: word(words, 1)?.parse::<u32>()?,
        n: number(Some(word(words, 2)?))?,
        out: number(Some(word(words, 3)?))?,
        width,
        pos,
        bounds,
        image: Image::of(hex::decode(alloc, word(words, 6)?)?),
    };
    code_of(alloc, &frame)
}

/// Numbers with commas between, at most eight, and how many they are.
fn up_to_8(text: &str) -> Result<([u64; 8], u32), Fail> {
    let mut numbers = [0; 8];
    let mut count = 0_u32;
    for (place, cell) in numbers.iter_mut().zip(text.split(",")) {
        *place = number(Some(cell))?;
        count = count.saturating_add(1);
    }
    Ok((numbers, count))
}

/// The code of a frame.
fn code_of(alloc: Global, f: &Frame) -> Result<Vec<u8>, Fail> {
    let mut out = Vec::new(alloc);
    let in_range = f.op >= 1 && f.op <= 4 && f.width >= 1 && f.width <= 8;
    let are_bounds = f.bounds.iter().all(|bound| *bound <= 1 << 63);
    if in_range && are_bounds && f.image.as_slice().len() < 1 << 32 {
        put_frame(f, &mut out)?;
        Ok(out)
    } else {
        Err(Fail::new("no frame"))
    }
}

/// The bytes in hexadecimal, 50 in a line.
pub(crate) fn digits(alloc: Global, bytes: &[u8]) -> Result<Vec<u8>, Fail> {
    let mut lines = Vec::new(alloc);
    for part in bytes.chunks(50) {
        lines.extend_from_slice(hex::encode(alloc, part)?.as_bytes())?;
        lines.push(b'\n')?;
    }
    Ok(lines)
}

/// The bytes with those changed that the words say, PLACE=BYTE.
pub(crate) fn changed(alloc: Global, bytes: &[u8], words: &[String]) -> Result<Vec<u8>, Fail> {
    let mut made = bytes.to_vec(alloc)?;
    for word in words {
        if let Some((place, digits)) = word.as_str().split_once("=") {
            let mut byte = [0];
            hex::decode_to_slice(digits, &mut byte)?;
            let place = place.parse::<usize>()?;
            *made.get_mut(place).ok_or("no such place")? = byte[0];
        }
    }
    Ok(made)
}

/// The same, and then the digest of all but the last 32 bytes in the place of those.
pub(crate) fn sealed(alloc: Global, bytes: &[u8], words: &[String]) -> Result<Vec<u8>, Fail> {
    let mut made = changed(alloc, bytes, words)?;
    made.truncate(made.len().saturating_sub(32));
    let digest = Sha256::digest(made.as_slice());
    made.extend_from_slice(&digest)?;
    Ok(made)
}

/// The line of the element whose record of this vertex and number the bytes are, or their fault.
pub(crate) fn as_record(alloc: Global, bytes: &[u8], words: &[String]) -> Result<Vec<u8>, Fail> {
    let (v, n) = vertex_and_number(words)?;
    match get_element(bytes, v, n) {
        Ok(element) => {
            let mut line = lines_of(alloc, &[element])?;
            line.truncate(line.len().saturating_sub(1));
            Ok(line)
        }
        Err(fault) => fault_shown(alloc, &fault),
    }
}

/// The words of the frame of this vertex and number whose code the bytes are, or their fault.
pub(crate) fn as_frame(alloc: Global, bytes: &[u8], words: &[String]) -> Result<Vec<u8>, Fail> {
    let (v, n) = vertex_and_number(words)?;
    match get_frame(alloc, bytes, v, n) {
        Ok(frame) => frame_shown(alloc, &frame),
        Err(FrameFault::Code(fault)) => fault_shown(alloc, &fault),
        Err(FrameFault::Memory) => Err(Fail::new("memory")),
    }
}

fn frame_shown(alloc: Global, f: &Frame) -> Result<Vec<u8>, Fail> {
    let pos = numbers_shown(alloc, &f.pos, f.width)?;
    let bounds = numbers_shown(alloc, &f.bounds, f.width)?;
    let image = hex::encode(alloc, f.image.as_slice())?;
    let text = format!(in alloc; "{} {} {} {} {pos} {bounds} {image}", f.op, f.v, f.n, f.out)?;
    Ok(text.as_bytes().to_vec(alloc)?)
}

/// The first numbers, with commas between.
fn numbers_shown(alloc: Global, numbers: &[u64], count: u32) -> Result<String, Fail> {
    let mut text = String::new(alloc);
    for number in numbers.iter().take(count as usize) {
        if !text.is_empty() {
            text.push(',')?;
        }
        text.push_str(&format!(in alloc; "{number}")?)?;
    }
    Ok(text)
}

/// A fault, and of a wrong digest both digests in lines of their own.
fn fault_shown(alloc: Global, fault: &CodecFault) -> Result<Vec<u8>, Fail> {
    match fault {
        CodecFault::BadDigest { kept, found } => {
            let mut lines = b"BadDigest\n".to_vec(alloc)?;
            lines.extend_from_slice(&digits(alloc, kept)?)?;
            lines.extend_from_slice(&digits(alloc, found)?)?;
            Ok(lines)
        }
        _ => shown(alloc, fault),
    }
}
