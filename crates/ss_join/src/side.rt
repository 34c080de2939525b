ghost use Rattle.std.specs.Prelude.{◌≡◌, ◌^◌, ◌<◌, ◌==◌, ◌++◌, [], ◌∷◌, length, nat_eq, nat_le, filter, false, OnOk, OnErr};
ghost use Rattle.std.specs.Prelude.{IfOk};
ghost use Rattle.std.specs.Map.{values_of};
ghost use Rattle.ss_meaning.specs.Entries.{rows_ending_above};
ghost use Rattle.ss_meaning.specs.Except.{alone};
ghost use Rattle.ss_meaning.specs.ExceptLaws.{ending_up_to};
ghost use Rattle.std.specs.Prelude.{None};
ghost use Rattle.std.specs.Option.{option_to_list};
ghost use Rattle.std.specs.Set.{distinct_count, is_member};
ghost use Rattle.ss_join.specs.Held.{first_reached, is_new, keys_apart};
ghost use Rattle.ss_join.specs.States.{row_keys};

use crate::held::{Ends, Rows, by_number, listed, next_match, put};
use ss_elem::{Event, Key};
use std::alloc::{AllocError, Global};
use std::collections::btree_map::Range;
use std::collections::{BTreeMap, BTreeSet};
use std::marker::Model;

/// The rows that an operator remembers of one input, seen in the order of their arrival.
///
/// They stand by their keys, and at one key by the numbers of their arrival, so that a row of the other input meets
/// those of its key alone. Their ends stand in an order of their own, so that those which a bound reaches stand in
/// front.
#[derive(Drop)]
pub struct Side {
    alloc: Global,
    rows: Rows,
    ends: Ends,
    next: u64,
}

impl Model for Side {
    ghost use Rattle.std.specs.Prelude.{List};
    ghost use Rattle.ss_elem.specs.declared.element.Event.{Event};
    ghost use Rattle.ss_join.specs.Held.{AreHeld, rows_held};

    ghost Value = { List Event };

    ghost view = { λ s. rows_held s.next s.rows };

    ghost invariant = { λ s. AreHeld s.rows s.ends s.next };
}

impl Side {
    /// A side without rows, which takes no memory.
    pub fn new(alloc: Global) -> Side
        ensures { result ≡ [] }
    {
        Side {
            alloc,
            rows: BTreeMap::new(alloc),
            ends: BTreeSet::new(alloc),
            next: 0,
        }
    }

    /// A side with these rows, which arrived in this order.
    pub fn of_rows(alloc: Global, list: &[Event]) -> Result<Side, AllocError>
        ensures { IfOk result (λ side. side ≡ list.now) }
    {
        let mut rows = BTreeMap::new(alloc);
        let mut ends = BTreeSet::new(alloc);
        for (number, row) in list.iter().enumerate() {
            put(&mut rows, &mut ends, number as u64, row)?;
        }
        Ok(Side {
            alloc,
            rows,
            ends,
            next: list.len() as u64,
        })
    }

    /// The rows in the order of their arrival.
    pub fn to_rows(&self) -> Result<Vec<Event>, AllocError>
        ensures { IfOk result (λ list. list.items ≡ self.now) }
    {
        let sorted = by_number(self.alloc, &self.rows)?;
        listed(self.alloc, &sorted)
    }

    /// How many rows there are.
    pub fn len(&self) -> usize
        ensures len { result ≡ length self.now }
        ensures few { result < 2 ^ 63 }
    {
        self.rows.len()
    }

    /// Appends a row.
    pub fn push(&mut self, row: &Event) -> Result<(), AllocError>
        ensures ok { OnOk result (self.new ≡ self.old ++ row.now ∷ []) }
        ensures err { OnErr result (self.new ≡ self.old) }
    {
        match self.next.checked_add(1) {
            Some(next) => {
                put(&mut self.rows, &mut self.ends, self.next, row)?;
                self.next = next;
            }
            None => {
                let mut rows = self.to_rows()?;
                rows.push(*row)?;
                *self = Side::of_rows(self.alloc, &rows)?;
            }
        }
        Ok(())
    }

    /// Forgets the rows that end at `bound` or before it.
    pub fn forget(&mut self, bound: u64)
        ensures { self.new ≡ rows_ending_above bound self.old }
    {
        while is_first_reached(&self.ends, bound) {
            if let Some(first) = self.ends.pop_first() {
                let _ = self.rows.remove(&(first.2, first.1));
            }
        }
    }

    /// Takes away the rows that have the key of `row` and a time in common with it. It goes through the rows of that key
    /// alone.
    pub fn remove_matches(&mut self, row: &Event)
        ensures { self.new ≡ alone (row.now ∷ []) self.old }
    {
        let mut from = 0;
        while let Some(found) = next_match(&self.rows, row, from, self.next) {
            let _ = self.ends.remove(&(found.1, found.0, row.key));
            let _ = self.rows.remove(&(row.key, found.0));
            from = found.0 + 1;
        }
    }

    /// Takes out the row that ends first, where it ends at `bound` or before it: of several that end then, the one that
    /// arrived first.
    pub fn pop_ended(&mut self, bound: u64) -> Option<Event>
        ensures first { ending_up_to bound self.old ≡ option_to_list result ++ ending_up_to bound self.new }
        ensures open { rows_ending_above bound self.new ≡ rows_ending_above bound self.old }
        ensures none { result ≡ None → rows_ending_above bound self.new ≡ self.new }
    {
        if !is_first_reached(&self.ends, bound) {
            return None;
        }
        match self.ends.pop_first() {
            Some(first) => self.rows.remove(&(first.2, first.1)),
            None => None,
        }
    }

    /// Whether a row ends at `bound` or before it; where none does, there is nothing to forget.
    pub fn has_ended(&self, bound: u64) -> bool
        ensures { result ≡ false → rows_ending_above bound self.now ≡ self.now }
    {
        is_first_reached(&self.ends, bound)
    }

    /// How many rows end at `bound` or before it.
    pub fn count_ended(&self, bound: u64) -> u64
        ensures count { result ≡ length (filter (λ row. nat_le row.end bound) self.now) }
        ensures few { result < 2 ^ 63 }
    {
        if !is_first_reached(&self.ends, bound) {
            return 0;
        }
        let mut count = 0;
        for row in self.rows.values() {
            if row.end <= bound {
                count += 1;
            }
        }
        count
    }

    /// The rows of a key, in the order of their arrival.
    pub fn of_key(&self, key: &Key) -> Range<'_, (Key, u64), Event>
        ensures rows { values_of result ≡ filter (λ row. key.now == row.key) self.now }
        ensures few { length result < 2 ^ 63 }
    {
        self.rows.range((*key, 0)..(*key, self.next))
    }

    /// Whether a row has this key.
    fn has_key(&self, key: &Key) -> bool
        ensures { result ≡ is_member nat_eq (row_keys self.now) key.now }
    {
        self.of_key(key).next().is_some()
    }

    /// How many different keys the rows have that no row of the other side has.
    pub(crate) fn keys_beside(&self, other: &Side) -> u64
        ensures count { result ≡ distinct_count nat_eq (keys_apart (row_keys other.now) (row_keys self.now)) }
        ensures few { result < 2 ^ 63 }
    {
        let mut count = 0;
        let mut before = None;
        for place in self.rows.keys() {
            if is_new(before, &place.0) && !other.has_key(&place.0) {
                count += 1;
            }
            before = Some(place.0);
        }
        count
    }

    /// How many different keys the rows have.
    pub(crate) fn keys(&self) -> u64
        ensures count { result ≡ distinct_count nat_eq (row_keys self.now) }
        ensures few { result < 2 ^ 63 }
    {
        let none = Side::new(self.alloc);
        self.keys_beside(&none)
    }
}

/// Whether a key differs from the one before it, where there is one.
fn is_new(before: Option<Key>, key: &Key) -> bool
    ensures { result ≡ is_new before key.now }
{
    match before {
        Some(before) => before != *key,
        None => true,
    }
}

/// Whether the first end is up to `bound`.
fn is_first_reached(ends: &Ends, bound: u64) -> bool
    ensures { result ≡ first_reached bound ends.now.keys }
{
    match ends.first() {
        Some(first) => first.0 <= bound,
        None => false,
    }
}
