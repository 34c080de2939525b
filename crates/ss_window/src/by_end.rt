ghost use Rattle.std.specs.Prelude.{◌≡◌, ◌+◌, ◌^◌, ◌<◌, [], ◌∷◌, ◌++◌, nat_lt, true, false, All, OnOk, OnErr, IfOk};
ghost use Rattle.std.specs.List.{AllByRecursion, list_all};
ghost use Rattle.std.specs.Ordering.{nat_cmp};
ghost use Rattle.std.specs.Map.{remove_entry};
ghost use Rattle.std.specs.BTreeMap.{is_at, values};
ghost use Rattle.ss_meaning.specs.EntryLists.{is_before, put_value};
ghost use Rattle.ss_window.specs.Held.{HasTotal, entries_in, join_of};
ghost use Rattle.ss_window.specs.Puts.{found, restored};
ghost use Rattle.ss_window.specs.States.{begins_reached};

use crate::entry::Entry;
use crate::pane::{self, Pane};
use crate::total::Total;
use ss_elem::Key;
use ss_expr::Agg;
use std::alloc::{AllocError, Global};
use std::collections::BTreeMap;

/// The panes of the ends with a row, in the order of the ends.
pub(crate) type ByEnd = BTreeMap<u64, Pane>;

/// Whether the first end is up to `low`.
pub(crate) fn is_first_reached(by_end: &ByEnd, low: u64) -> bool
    requires { AllByRecursion HasTotal by_end.now.entries }
    ensures { result ≡ begins_reached low (entries_in by_end.now.entries) }
{
    match by_end.first_key_value() {
        Some((end, _)) => *end <= low,
        None => false,
    }
}

/// Whether each total counts fewer than 2^62 rows.
pub(crate) fn counts_few(by_end: &ByEnd) -> bool
    ensures { result ≡ list_all (λ p. list_all (λ t. nat_lt t.rows (2 ^ 62)) (values p)) (values by_end.now) }
{
    by_end.values().all(|pane| pane::counts_few(pane))
}

/// Puts the value of a row into the pane of an end, and tells what was there of its key.
pub(crate) fn put_at(
    alloc: Global,
    by_end: &mut ByEnd,
    end: u64,
    key: &Key,
    value: i64,
    agg: Agg,
) -> Result<Option<Total>, AllocError>
    requires few { All (λ e. e.rows + 1 < 2 ^ 63) (entries_in by_end.old.entries) }
    requires full { AllByRecursion HasTotal by_end.old.entries }
    ensures ok { OnOk result (entries_in by_end.new.entries
        ≡ put_value (join_of agg) key.now value end (entries_in by_end.old.entries)) }
    ensures told { IfOk result (λ had. had ≡ found end key.now (entries_in by_end.old.entries)) }
    ensures err { OnErr result (entries_in by_end.new.entries ≡ entries_in by_end.old.entries) }
    ensures full { AllByRecursion HasTotal by_end.new.entries }
{
    match by_end.get_mut(&end) {
        Some(pane) => match pane::put(pane, key, value, agg) {
            Ok(had) => Ok(had),
            Err(error) => Err(error),
        },
        None => {
            let pane = pane::with_total(alloc, key, Total::single(value))?;
            by_end.insert(end, pane)?;
            Ok(None)
        }
    }
}

/// Brings back what was there of a key at an end, and tells whether nothing is left in its pane.
fn is_emptied(by_end: &mut ByEnd, end: u64, key: &Key, had: &Option<Total>) -> bool
    requires { AllByRecursion HasTotal by_end.old.entries }
    ensures entries { entries_in by_end.new.entries ≡ restored end key.now had.now (entries_in by_end.old.entries) }
    ensures full { result ≡ false → AllByRecursion HasTotal by_end.new.entries }
    ensures rest { AllByRecursion HasTotal (remove_entry (is_at (nat_cmp end)) by_end.new.entries) }
    ensures empty { result ≡ true
        → entries_in (remove_entry (is_at (nat_cmp end)) by_end.new.entries) ≡ entries_in by_end.new.entries }
{
    match by_end.get_mut(&end) {
        Some(pane) => {
            pane::restore(pane, key, had);
            pane.len() == 0
        }
        None => false,
    }
}

/// Brings back what was there of a key at an end. A pane in which nothing is left goes.
pub(crate) fn restore_at(by_end: &mut ByEnd, end: u64, key: &Key, had: &Option<Total>)
    requires { AllByRecursion HasTotal by_end.old.entries }
    ensures entries { entries_in by_end.new.entries ≡ restored end key.now had.now (entries_in by_end.old.entries) }
    ensures full { AllByRecursion HasTotal by_end.new.entries }
{
    if is_emptied(by_end, end, key, had) {
        let _ = by_end.remove(&end);
    }
}

/// Appends an entry behind all others, into the last pane or a new one.
pub(crate) fn push_at(alloc: Global, by_end: &mut ByEnd, entry: &Entry) -> Result<(), AllocError>
    requires full { AllByRecursion HasTotal by_end.old.entries }
    requires last { AllByRecursion (λ e. is_before entry.now.end entry.now.key e ≡ true) (entries_in by_end.old.entries) }
    ensures ok { OnOk result (entries_in by_end.new.entries ≡ entries_in by_end.old.entries ++ entry.now ∷ []) }
    ensures full { AllByRecursion HasTotal by_end.new.entries }
    ensures err { OnErr result (entries_in by_end.new.entries ≡ entries_in by_end.old.entries) }
{
    let place = entry.end();
    let key = entry.key();
    let total = entry.total();
    match by_end.get_mut(&place) {
        Some(pane) => match pane::push(pane, &key, total) {
            Ok(()) => Ok(()),
            Err(error) => Err(error),
        },
        None => {
            let pane = pane::with_total(alloc, &key, total)?;
            by_end.insert(place, pane)?;
            Ok(())
        }
    }
}
