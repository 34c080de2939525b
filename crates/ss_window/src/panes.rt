ghost use Rattle.std.specs.Prelude.{◌≡◌, ◌+◌, ◌^◌, ◌<◌, ◌≤◌, [], ◌∷◌, ◌++◌, length, true, false, All, IsTrue, ◌↔◌};
ghost use Rattle.std.specs.Prelude.{None, IsSome, OnOk, OnErr, IfOk, IfNone, IfSome};
ghost use Rattle.std.specs.List.{AllByRecursion};
ghost use Rattle.std.specs.BTreeMap.{btree_map_len};
ghost use Rattle.ss_meaning.specs.EntryLists.{AreInOrder, is_before, put_value};
ghost use Rattle.ss_window.specs.Held.{entries_at, entries_in, join_of};
ghost use Rattle.ss_window.specs.Puts.{found, restored};
ghost use Rattle.ss_window.specs.States.{CountsFew, begins_reached, pane_count, reached};

use crate::by_end::{ByEnd, counts_few, is_first_reached, push_at, put_at, restore_at};
use crate::entry::Entry;
use crate::pane::Pane;
use crate::total::Total;
use ss_elem::Key;
use ss_expr::Agg;
use ss_meaning::entries_are_in_order;
use std::alloc::{AllocError, Global};
use std::collections::BTreeMap;
use std::marker::Model;

/// So many totals are never held: no machine has the memory.
const TOO_MANY: u64 = (1 << 63) - 1;

/// What a window remembers, seen as the entries of its image: the totals of each end with a row stand in a pane of
/// their own, and the panes stand by their ends.
#[derive(Drop)]
pub(crate) struct Panes {
    alloc: Global,
    by_end: ByEnd,
    held: u64,
}

impl Model for Panes {
    ghost use Rattle.std.specs.Prelude.{List};
    ghost use Rattle.ss_meaning.specs.Entries.{WindowEntry};
    ghost use Rattle.ss_window.specs.Held.{AreHeld, entries_in};

    ghost Value = { List WindowEntry };

    ghost view = { λ p. entries_in p.by_end.entries };

    ghost invariant = { λ p. AreHeld p.by_end.entries p.held };
}

impl Panes {
    /// No panes, which take no memory.
    pub(crate) fn new(alloc: Global) -> Panes
        ensures { result ≡ [] }
    {
        Panes {
            alloc,
            by_end: BTreeMap::new(alloc),
            held: 0,
        }
    }

    /// The panes of entries in their order.
    pub(crate) fn of_entries(alloc: Global, entries: &[Entry]) -> Result<Panes, AllocError>
        requires { AreInOrder entries.now }
        ensures { IfOk result (λ panes. panes ≡ entries.now) }
    {
        let mut panes = Panes::new(alloc);
        for entry in entries {
            panes.push(entry)?;
        }
        Ok(panes)
    }

    /// The panes by their ends.
    pub(crate) fn by_end(&self) -> &ByEnd
        ensures { entries_in result.now.entries ≡ self.now }
    {
        &self.by_end
    }

    /// How many totals there are.
    pub(crate) fn held(&self) -> u64
        ensures { result ≡ length self.now }
    {
        self.held
    }

    /// How many panes there are.
    pub(crate) fn count(&self) -> u64
        ensures { result ≡ pane_count self.now }
    {
        self.by_end.len() as u64
    }

    /// Whether each total counts fewer than 2^62 rows.
    pub(crate) fn counts_few(&self) -> bool
        ensures { IsTrue result ↔ All CountsFew self.now }
    {
        counts_few(&self.by_end)
    }

    /// How many totals stand in front at ends up to `low`. No pane behind the first later end is looked at.
    pub(crate) fn due(&self, low: u64) -> u64
        ensures due { result ≡ length (reached low self.now) }
        ensures small { result < 2 ^ 63 }
    {
        let mut count = 0;
        for (end, pane) in &self.by_end {
            if *end > low {
                return count;
            }
            count += pane.len() as u64;
        }
        count
    }

    /// Puts the value of a row at an end, and tells what was there of its key. An error is want of memory.
    pub(crate) fn put(
        &mut self,
        end: u64,
        key: &Key,
        value: i64,
        agg: Agg,
    ) -> Result<Option<Total>, AllocError>
        requires { All (λ e. e.rows + 1 < 2 ^ 63) self.old }
        ensures order { AreInOrder self.old }
        ensures ok { OnOk result (self.new ≡ put_value (join_of agg) key.now value end self.old) }
        ensures told { IfOk result (λ had. had ≡ found end key.now self.old) }
        ensures err { OnErr result (self.new ≡ self.old) }
    {
        entries_are_in_order();
        if self.held >= TOO_MANY {
            return Err(AllocError);
        }
        match put_at(self.alloc, &mut self.by_end, end, key, value, agg)? {
            Some(had) => Ok(Some(had)),
            None => {
                self.held += 1;
                Ok(None)
            }
        }
    }

    /// Brings back what was there of a key at an end, which has one now. A pane that has nothing left goes.
    pub(crate) fn restore(&mut self, end: u64, key: &Key, had: &Option<Total>)
        requires { IsSome (found end key.now self.old) }
        ensures { self.new ≡ restored end key.now had.now self.old }
    {
        restore_at(&mut self.by_end, end, key, had);
        if had.is_none() {
            self.held -= 1;
        }
    }

    /// Takes out the first pane, where its end is up to `low`.
    pub(crate) fn pop_reached(&mut self, low: u64) -> Option<(u64, Pane)>
        ensures order { AreInOrder self.old }
        ensures first { IfSome result (λ p. self.old ≡ entries_at p.0 p.1.entries ++ self.new) }
        ensures reached { IfSome result (λ p. p.0 ≤ low) }
        ensures full { IfSome result (λ p. 0 < btree_map_len p.1) }
        ensures none { IfNone result (begins_reached low self.old ≡ false) }
        ensures same { IfNone result (self.new ≡ self.old) }
    {
        if !is_first_reached(&self.by_end, low) {
            return None;
        }
        match self.by_end.pop_first() {
            Some((end, pane)) => {
                self.held -= pane.len() as u64;
                Some((end, pane))
            }
            None => None,
        }
    }

    /// Appends an entry behind all others. An error is want of memory.
    fn push(&mut self, entry: &Entry) -> Result<(), AllocError>
        requires { AllByRecursion (λ e. is_before entry.now.end entry.now.key e ≡ true) self.old }
        ensures { OnOk result (self.new ≡ self.old ++ entry.now ∷ []) }
    {
        if self.held >= TOO_MANY {
            return Err(AllocError);
        }
        push_at(self.alloc, &mut self.by_end, entry)?;
        self.held += 1;
        Ok(())
    }
}
