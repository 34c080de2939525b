ghost use Rattle.std.specs.Prelude.{◌≡◌};
ghost use Rattle.ss_meaning.specs.EntryLists.{is_before};
ghost use Rattle.ss_window.specs.Held.{entry_of};

use crate::total::Total;
use ss_elem::Key;
use std::marker::Model;

/// A total at its end and key, as an image has it.
#[derive(Clone, Copy)]
pub(crate) struct Entry {
    end: u64,
    key: Key,
    total: Total,
}

impl Model for Entry {
    ghost use Rattle.ss_meaning.specs.Entries.{WindowEntry};
    ghost use Rattle.ss_window.specs.Held.{entry_of};

    ghost Value = { WindowEntry };

    ghost view = { λ e. entry_of e.end e.key e.total };

    ghost inverse = { λ e. record { end = e.end; key = e.key; total = record { value = e.value; rows = e.rows } } };
}

impl Entry {
    pub(crate) fn of(end: u64, key: Key, total: Total) -> Entry
        ensures { result ≡ entry_of end key total }
    {
        Entry { end, key, total }
    }

    pub(crate) fn end(&self) -> u64
        ensures { result ≡ self.now.end }
    {
        self.end
    }

    pub(crate) fn key(&self) -> Key
        ensures { result ≡ self.now.key }
    {
        self.key
    }

    pub(crate) fn total(&self) -> Total
        ensures { result ≡ record { value = self.now.value; rows = self.now.rows } }
    {
        self.total
    }

    /// Whether the entry stands before the place of this end and key.
    pub(crate) fn is_before(&self, end: u64, key: &Key) -> bool
        ensures { result ≡ is_before end key.now self.now }
    {
        self.end < end || self.end == end && self.key < *key
    }
}
