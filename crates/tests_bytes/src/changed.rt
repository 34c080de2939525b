use std::alloc::{AllocError, Global};

/// The bytes with these bits changed at a place.
pub(crate) fn changed(
    alloc: Global,
    bytes: &[u8],
    place: usize,
    bits: u8,
) -> Result<Vec<u8>, AllocError> {
    let mut made = Vec::from_slice(alloc, bytes)?;
    if let Some(byte) = made.get_mut(place) {
        *byte ^= bits;
    }
    Ok(made)
}
