//! Records in a depot in memory, those of vertex 0.
ghost use Rattle.std.specs.Prelude.{◌≡◌, ◌+◌, ◌<◌, ◌≤◌, OnSome, IfSome};
ghost use Rattle.ss_outside.specs.Depot.{next_number};
ghost use Rattle.ss_outside.specs.MemDepot.{contents_held};

use ss_outside::{Depot, MemDepot};
use std::alloc::Global;

/// How many records are held where those behind the last are cut.
const HELD: u64 = 1000;

/// The bytes of record `n`, as many as a row's record has.
fn record(n: u64) -> [u8; 94] {
    let mut bytes = [7; 94];
    bytes[0] = (n % 256) as u8;
    bytes
}

/// Appends record `n`.
fn append_next(depot: &mut MemDepot, n: u64) -> Option<()>
    requires { n ≡ next_number (contents_held depot.old) 0 }
    ensures first { OnSome result ((contents_held depot.new).first 0 ≡ (contents_held depot.old).first 0) }
    ensures next { OnSome result (next_number (contents_held depot.new) 0 ≡ n + 1) }
{
    match depot.append(0, n, record(n).as_slice()) {
        Ok(()) => Some(()),
        Err(_) => None,
    }
}

/// The first byte of record `n`.
fn fetch_at(depot: &mut MemDepot, n: u64, out: &mut Vec<u8>) -> Option<u8>
    requires first { (contents_held depot.old).first 0 ≤ n }
    requires held { n < next_number (contents_held depot.old) 0 }
    ensures kept { OnSome result (contents_held depot.new ≡ contents_held depot.old) }
{
    match depot.fetch(0, n, out) {
        Ok(()) => out.first().copied(),
        Err(_) => None,
    }
}

/// Cuts the records below number `m`.
fn cut_to(depot: &mut MemDepot, m: u64) -> Option<()>
    requires forward { (contents_held depot.old).first 0 ≤ m }
    requires within { m ≤ next_number (contents_held depot.old) 0 }
    ensures first { OnSome result ((contents_held depot.new).first 0 ≡ m) }
    ensures next { OnSome result (next_number (contents_held depot.new) 0 ≡ next_number (contents_held depot.old) 0) }
{
    match depot.cut(0, m) {
        Ok(()) => Some(()),
        Err(_) => None,
    }
}

/// A depot with so many records.
fn filled(alloc: Global, count: u32) -> Option<MemDepot>
    ensures first { IfSome result (λ depot. (contents_held depot).first 0 ≡ 0) }
    ensures next { IfSome result (λ depot. next_number (contents_held depot) 0 ≡ count) }
{
    let mut depot = MemDepot::new(alloc);
    for n in 0..u64::from(count) {
        append_next(&mut depot, n)?;
    }
    Some(depot)
}

/// So many records, appended.
pub(crate) fn depot_append(alloc: Global, count: u32) -> Option<u64> {
    let depot = filled(alloc, count)?;
    Some(depot.appended(0))
}

/// So many records, appended and then fetched twenty times.
pub(crate) fn depot_fetch(alloc: Global, count: u32) -> Option<u64> {
    let mut depot = filled(alloc, count)?;
    let mut out = Vec::new(alloc);
    let mut made = 0u64;
    for _ in 0..20u32 {
        made = made.wrapping_add(fetch_all(&mut depot, count, &mut out)?);
    }
    Some(made)
}

/// Fetches each of so many records, and adds up their first bytes.
fn fetch_all(depot: &mut MemDepot, count: u32, out: &mut Vec<u8>) -> Option<u64>
    requires first { (contents_held depot.old).first 0 ≡ 0 }
    requires held { next_number (contents_held depot.old) 0 ≡ count }
    ensures kept { OnSome result (contents_held depot.new ≡ contents_held depot.old) }
{
    let mut made = 0u64;
    for n in 0..u64::from(count) {
        made = made.wrapping_add(u64::from(fetch_at(depot, n, out)?));
    }
    Some(made)
}

/// So many records, appended; after each those but the last thousand are cut.
pub(crate) fn depot_cut(alloc: Global, count: u32) -> Option<u64> {
    let mut depot = MemDepot::new(alloc);
    for n in 0..u64::from(count) {
        append_next(&mut depot, n)?;
        cut_to(&mut depot, (n + 1).saturating_sub(HELD))?;
    }
    Some(depot.appended(0))
}
