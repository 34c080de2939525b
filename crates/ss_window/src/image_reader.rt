ghost use Rattle.std.specs.Prelude.{◌≡◌, ◌*◌, ◌^◌, ◌≤◌, None, Ok, length, IfOk, IfErr};
ghost use Rattle.ss_image.specs.Faults.{Fails};
ghost use Rattle.ss_window.specs.ImageTests.{entry_read, entries_read, follows, is_count, is_open_end, is_sum_of};
ghost use Rattle.ss_window.specs.ImageTests.{image_read, last, summands};

use crate::entry::Entry;
use crate::panes::Panes;
use crate::total::Total;
use ss_expr::Agg;
use ss_image::{ImageFault, i128_at, read_key, u32_at, u64_at};
use std::alloc::Global;

const COUNT_LEN: usize = 4;

const ENTRY_LEN: usize = 48;

const TOP_TIME: u64 = 1 << 63;

const MOST_ROWS: u64 = 1 << 62;

/// The panes whose image the bytes are.
pub(crate) fn read_image(
    alloc: Global,
    hop: u64,
    agg: Agg,
    low: u64,
    bytes: &[u8],
) -> Result<Panes, ImageFault>
    requires { 1 ≤ hop }
    ensures ok { IfOk result (λ panes. image_read hop agg low bytes.now ≡ Ok panes) }
    ensures fault { IfErr result (λ fault. Fails fault (image_read hop agg low bytes.now)) }
{
    if bytes.len() < COUNT_LEN {
        return Err(ImageFault::At { at: 0 });
    }
    let count = u32_at(bytes, 0) as usize;
    if bytes.len() != COUNT_LEN + ENTRY_LEN * count {
        return Err(ImageFault::At { at: 0 });
    }
    let entries = read_entries(alloc, hop, agg, low, count, &bytes[COUNT_LEN..])?;
    Ok(Panes::of_entries(alloc, &entries)?)
}

/// So many entries, which are all of the bytes.
fn read_entries(
    alloc: Global,
    hop: u64,
    agg: Agg,
    low: u64,
    count: usize,
    bytes: &[u8],
) -> Result<Vec<Entry>, ImageFault>
    requires hop { 1 ≤ hop }
    requires whole { length bytes.now ≡ 48 * count }
    ensures ok { IfOk result (λ v. entries_read hop agg low count 4 None bytes.now ≡ Ok v.items) }
    ensures fault { IfErr result (λ fault. Fails fault (entries_read hop agg low count 4 None bytes.now)) }
{
    let mut entries = Vec::new(alloc);
    for number in 0..count {
        let place = ENTRY_LEN * number;
        match read_entry(hop, agg, low, entries.as_slice(), &bytes[place..]) {
            Some(entry) => entries.push(entry)?,
            None => {
                return Err(ImageFault::At {
                    at: (COUNT_LEN + place) as u64,
                });
            }
        }
    }
    Ok(entries)
}

/// The entry in the first 48 bytes, where it passes each test and stands behind those before it.
#[tactic(auto, unfolding(crate::specs::ImageTests::entry_read))]
fn read_entry(hop: u64, agg: Agg, low: u64, before: &[Entry], bytes: &[u8]) -> Option<Entry>
    requires hop { 1 ≤ hop }
    requires whole { 48 ≤ length bytes.now }
    ensures { result ≡ entry_read hop agg low (last before.now) bytes.now }
{
    let key = read_key(&bytes[8..24])?;
    let end = u64_at(bytes, 0);
    let value = i128_at(bytes, 24);
    let rows = u64_at(bytes, 40);
    if !is_open_end(hop, low, end) || !is_count(rows) || !is_sum_of(summands(agg, rows), value) {
        return None;
    }
    let entry = Entry::of(end, key, Total::of(value, rows));
    if follows(before, &entry) {
        Some(entry)
    } else {
        None
    }
}

fn is_open_end(hop: u64, low: u64, end: u64) -> bool
    requires { 1 ≤ hop }
    ensures { result ≡ is_open_end hop low end }
{
    low < end && end < TOP_TIME && end % hop == 0
}

fn is_count(rows: u64) -> bool
    ensures { result ≡ is_count rows }
{
    0 < rows && rows <= MOST_ROWS
}

fn summands(agg: Agg, rows: u64) -> u64
    ensures { result ≡ summands agg rows }
{
    match agg {
        Agg::Sum => rows,
        Agg::Least | Agg::Greatest => 1,
    }
}

fn is_sum_of(count: u64, value: i128) -> bool
    requires { count ≤ 2 ^ 62 }
    ensures { result ≡ is_sum_of count value }
{
    let count = count as i128;
    count * (i64::MIN as i128) <= value && value <= count * (i64::MAX as i128)
}

fn follows(before: &[Entry], entry: &Entry) -> bool
    ensures { result ≡ follows (last before.now) entry.now }
{
    match before.last() {
        Some(previous) => previous.is_before(entry.end(), &entry.key()),
        None => true,
    }
}
