use sha2::{Digest, Sha256};
use ss_codec::put_element;
use ss_elem::{Bound, Element, Event, Key, valid_next};
use ss_tail::{Shown, Tail};
use std::alloc::Global;

/// How many bytes of a row's record its digest is of.
const FRONT: usize = 62;

/// So many digests, each of as many bytes as a record's, which begin with a byte of the digest before it.
pub(crate) fn digests(count: u32) -> u64 {
    let mut front = [0u8; FRONT];
    let mut made = 0u64;
    for _ in 0..count {
        let digest = Sha256::digest(front.as_slice());
        front[0] = digest[0];
        made = made.wrapping_add(u64::from(digest[0]));
    }
    made
}

/// So many records of rows, one behind another, a thousand at a time.
pub(crate) fn records(alloc: Global, count: u32) -> Option<u64> {
    let key = Key::of(b"k").ok()?;
    let mut out = Vec::new(alloc);
    let mut made = 0u64;
    for n in 0..count {
        if n % 1000 == 0 {
            out.clear();
        }
        let start = u64::from(n);
        let row = Element::Row(Event {
            start,
            end: start + 1,
            key,
            a: 1,
            b: 2,
            c: 0,
            d: 0,
        });
        if let Ok(_) = valid_next(Bound::ZERO, &row) {
            put_element(0, start, &row, &mut out).ok()?;
        }
        made = made.wrapping_add(u64::from(out.last().copied().unwrap_or(0)));
    }
    Some(made)
}

/// So many elements written to a tail. After each it is trimmed, so that it holds the last thousand, and read in their
/// midst.
pub(crate) fn tail(alloc: Global, count: u32) -> Option<u64> {
    let mut tail = Tail::new(alloc);
    let mut made = 0u64;
    for n in 0..u64::from(count) {
        tail.write(n, &Element::Cti(n + 1)).ok()?;
        tail.trim(n.saturating_sub(1000));
        match tail.read(n.saturating_sub(500)) {
            Shown::Item(_) => made = made.wrapping_add(1),
            Shown::Below { from } | Shown::Torn { end: from } | Shown::NotYet { end: from } => {
                made = made.wrapping_add(from);
            }
        }
    }
    Some(made)
}
