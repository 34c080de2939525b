ghost use Rattle.std.specs.Prelude.{◌≡◌, ◌+◌, ◌*◌, ◌^◌, ◌≤◌, ◌&&◌, nat_lt, nat_le, None, Ok, length, IfOk, IfErr};
ghost use Rattle.ss_image.specs.Faults.{Fails};
ghost use Rattle.ss_session.specs.ImageTests.{session_read, sessions_read, follows, is_count, is_sum_of, image_read};
ghost use Rattle.ss_session.specs.ImageTests.{summands};
ghost use Rattle.ss_session.specs.SessionHeld.{last_of};

use crate::session_entry::Entry;
use ss_expr::Agg;
use ss_image::{ImageFault, i128_at, read_key, u32_at, u64_at};
use std::alloc::Global;

const COUNT_LEN: usize = 4;

const ENTRY_LEN: usize = 56;

const TOP_START: u64 = (1 << 62) + (1 << 60);

const MOST_ROWS: u64 = 1 << 62;

/// The sessions whose image the bytes are.
pub(crate) fn read_image(
    alloc: Global,
    gap: u64,
    agg: Agg,
    low: u64,
    bytes: &[u8],
) -> Result<Vec<Entry>, ImageFault>
    requires { gap ≤ 2 ^ 40 }
    ensures ok { IfOk result (λ v. image_read gap agg low bytes.now ≡ Ok v.items) }
    ensures fault { IfErr result (λ fault. Fails fault (image_read gap agg low bytes.now)) }
{
    if bytes.len() < COUNT_LEN {
        return Err(ImageFault::At { at: 0 });
    }
    let count = u32_at(bytes, 0) as usize;
    if bytes.len() != COUNT_LEN + ENTRY_LEN * count {
        return Err(ImageFault::At { at: 0 });
    }
    read_sessions(alloc, gap, agg, low, count, &bytes[COUNT_LEN..])
}

/// So many sessions, which are all of the bytes.
fn read_sessions(
    alloc: Global,
    gap: u64,
    agg: Agg,
    low: u64,
    count: usize,
    bytes: &[u8],
) -> Result<Vec<Entry>, ImageFault>
    requires gap { gap ≤ 2 ^ 40 }
    requires whole { length bytes.now ≡ 56 * count }
    ensures ok { IfOk result (λ v. sessions_read gap agg low count 4 None bytes.now ≡ Ok v.items) }
    ensures fault { IfErr result (λ fault. Fails fault (sessions_read gap agg low count 4 None bytes.now)) }
{
    let mut entries = Vec::new(alloc);
    for number in 0..count {
        let place = ENTRY_LEN * number;
        match read_session(gap, agg, low, entries.as_slice(), &bytes[place..]) {
            Some(entry) => entries.push(entry)?,
            None => {
                return Err(ImageFault::At {
                    at: (COUNT_LEN + place) as u64,
                });
            }
        }
    }
    Ok(entries)
}

/// The session in the first 56 bytes, where it passes each test and stands behind those before it.
#[tactic(auto, unfolding(crate::specs::ImageTests::session_read))]
fn read_session(gap: u64, agg: Agg, low: u64, before: &[Entry], bytes: &[u8]) -> Option<Entry>
    requires gap { gap ≤ 2 ^ 40 }
    requires whole { 56 ≤ length bytes.now }
    ensures { result ≡ session_read gap agg low (last_of before.now) bytes.now }
{
    let key = read_key(&bytes[..16])?;
    let first = u64_at(bytes, 16);
    let last = u64_at(bytes, 24);
    let value = i128_at(bytes, 32);
    let rows = u64_at(bytes, 48);
    if !is_open_span(gap, low, first, last)
        || !is_count(rows)
        || !is_sum_of(summands(agg, rows), value)
    {
        return None;
    }
    let entry = Entry::of(key, first, last, value, rows);
    if follows(before, &entry, gap) {
        Some(entry)
    } else {
        None
    }
}

fn is_open_span(gap: u64, low: u64, first: u64, last: u64) -> bool
    requires { gap ≤ 2 ^ 40 }
    ensures { result ≡ (nat_le first last && (nat_lt last (2 ^ 62 + 2 ^ 60) && nat_lt low (last + gap))) }
{
    first <= last && last < TOP_START && low < last + gap
}

fn is_count(rows: u64) -> bool
    ensures { result ≡ is_count rows }
{
    0 < rows && rows <= MOST_ROWS
}

fn summands(agg: Agg, rows: u64) -> u64
    ensures { result ≡ summands agg rows }
{
    match agg {
        Agg::Sum => rows,
        Agg::Least | Agg::Greatest => 1,
    }
}

fn is_sum_of(count: u64, value: i128) -> bool
    requires { count ≤ 2 ^ 62 }
    ensures { result ≡ is_sum_of count value }
{
    let count = count as i128;
    count * (i64::MIN as i128) <= value && value <= count * (i64::MAX as i128)
}

fn follows(before: &[Entry], entry: &Entry, gap: u64) -> bool
    requires { gap ≤ 2 ^ 40 }
    ensures { result ≡ follows gap (last_of before.now) entry.now }
{
    match before.last() {
        Some(previous) => previous.is_apart(entry, gap),
        None => true,
    }
}
