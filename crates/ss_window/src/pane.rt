ghost use Rattle.std.specs.Prelude.{◌≡◌, ℕ, ◌+◌, ◌^◌, ◌<◌, ◌≤◌, [], ◌∷◌, ◌++◌, nat_lt, true, All};
ghost use Rattle.std.specs.Prelude.{OnOk, OnErr, IfOk};
ghost use Rattle.std.specs.List.{AllByRecursion, list_all};
ghost use Rattle.std.specs.Option.{ForSome};
ghost use Rattle.std.specs.Ordering.{nat_cmp};
ghost use Rattle.std.specs.BTreeMap.{btree_map_len, get, values};
ghost use Rattle.ss_meaning.specs.EntryLists.{is_before, put_value};
ghost use Rattle.ss_window.specs.Held.{entries_at, entry_of, grown_total, join_of};
ghost use Rattle.ss_window.specs.Puts.{restored};
ghost use Rattle.ss_window.specs.States.{rows_of_entries};

use crate::total::Total;
use ss_elem::{Element, Key, Out};
use ss_expr::Agg;
use std::alloc::{AllocError, Global};
use std::collections::BTreeMap;

/// What is remembered of each key with a row at one end, in the order of the keys.
pub(crate) type Pane = BTreeMap<Key, Total>;

/// A pane with one total.
pub(crate) fn with_total(alloc: Global, key: &Key, total: Total) -> Result<Pane, AllocError>
    ensures { IfOk result (λ pane. pane.entries ≡ (key.now, total) ∷ []) }
{
    let mut pane = BTreeMap::new(alloc);
    pane.insert(*key, total)?;
    Ok(pane)
}

/// A total with the value of one more row.
fn grown(had: &Option<Total>, value: i64, agg: Agg) -> Total
    requires { ForSome had.now (λ t. t.rows + 1 < 2 ^ 63) }
    ensures { result ≡ grown_total (join_of agg) value had.now }
{
    match had {
        Some(total) => {
            let mut more = *total;
            more.add(value, agg);
            more
        }
        None => Total::single(value),
    }
}

/// What there is of this key.
fn total_of(pane: &Pane, key: &Key) -> Option<Total>
    ensures { result ≡ get nat_cmp pane.now key.now }
{
    pane.get(key).copied()
}

/// Puts the value of a row, and tells what was there of its key.
pub(crate) fn put(
    pane: &mut Pane,
    key: &Key,
    value: i64,
    agg: Agg,
) -> Result<Option<Total>, AllocError>
    requires { All (λ t. t.rows + 1 < 2 ^ 63) (values pane.old) }
    ensures ok { OnOk result ((end : ℕ) → entries_at end pane.new.entries
        ≡ put_value (join_of agg) key.now value end (entries_at end pane.old.entries)) }
    ensures told { IfOk result (λ had. had ≡ get nat_cmp pane.old key.now) }
    ensures err { OnErr result (pane.new.entries ≡ pane.old.entries) }
    ensures len { btree_map_len pane.old ≤ btree_map_len pane.new }
{
    let had = total_of(pane, key);
    let more = grown(&had, value, agg);
    pane.insert(*key, more)?;
    Ok(had)
}

/// Brings back what was there of a key.
pub(crate) fn restore(pane: &mut Pane, key: &Key, had: &Option<Total>)
    ensures { (end : ℕ) → entries_at end pane.new.entries
        ≡ restored end key.now had.now (entries_at end pane.old.entries) }
{
    match had {
        Some(total) => match pane.get_mut(key) {
            Some(now) => *now = *total,
            None => (),
        },
        None => {
            let _ = pane.remove(key);
        }
    }
}

/// Appends a total behind all others.
pub(crate) fn push(pane: &mut Pane, key: &Key, total: Total) -> Result<(), AllocError>
    ensures ok { OnOk result ((end : ℕ)
        → AllByRecursion (λ e. is_before end key.now e ≡ true) (entries_at end pane.old.entries)
        → entries_at end pane.new.entries ≡ entries_at end pane.old.entries ++ entry_of end key.now total ∷ []) }
    ensures err { OnErr result (pane.new.entries ≡ pane.old.entries) }
    ensures len { btree_map_len pane.old ≤ btree_map_len pane.new }
{
    pane.insert(*key, total)?;
    Ok(())
}

/// Appends the rows that the totals of an end become.
pub(crate) fn give(end: u64, pane: &Pane, hop: u64, out: &mut Out)
    requires end { end ≤ 2 ^ 63 }
    requires hop { hop ≤ 2 ^ 40 }
    requires room { btree_map_len pane.now ≤ out.old.spare }
    ensures given { out.new.elements ≡ out.old.elements ++ rows_of_entries hop (entries_at end pane.now.entries) }
    ensures spare { out.new.spare + btree_map_len pane.now ≡ out.old.spare }
{
    for (key, total) in pane {
        out.push(Element::Row(total.row(end, key, hop)));
    }
}

/// Whether each total counts fewer than 2^62 rows.
pub(crate) fn counts_few(pane: &Pane) -> bool
    ensures { result ≡ list_all (λ t. nat_lt t.rows (2 ^ 62)) (values pane.now) }
{
    pane.values().all(|total| total.rows() < 1 << 62)
}
