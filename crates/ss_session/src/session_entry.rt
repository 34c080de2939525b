ghost use Rattle.std.specs.Prelude.{◌≡◌, ◌+◌, ◌-◌, ◌^◌, ◌<◌, ◌≤◌, pos, neg_ℤ, ◌≤ℤ◌};
ghost use Rattle.ss_meaning.specs.Session.{closing, session_row};
ghost use Rattle.ss_meaning.specs.SessionLists.{is_apart, joined_sessions};
ghost use Rattle.ss_meaning.specs.Window.{clamped};
ghost use Rattle.ss_session.specs.SessionHeld.{join_of, IsHeld};

use ss_elem::{Event, Key};
use ss_expr::Agg;
use std::marker::Model;

/// An open session of a key: its least and its greatest start, the sum, the least or the greatest of its values, and
/// how many rows it has.
#[derive(Clone, Copy)]
pub(crate) struct Entry {
    key: Key,
    first: u64,
    last: u64,
    value: i128,
    rows: u64,
}

impl Model for Entry {
    ghost use Rattle.ss_meaning.specs.Session.{SessionEntry};
    ghost use Rattle.ss_session.specs.SessionHeld.{IsHeld};

    ghost Value = { SessionEntry };

    ghost view = { λ e. record { key = e.key; first = e.first; last = e.last; value = e.value; rows = e.rows } };

    ghost invariant = { λ e. IsHeld (record { key = e.key; first = e.first; last = e.last; value = e.value; rows = e.rows }) };

    ghost inverse = { λ e. record { key = e.key; first = e.first; last = e.last; value = e.value; rows = e.rows } };
}

impl Entry {
    /// The session of one row.
    pub(crate) fn single(key: Key, start: u64, value: i64) -> Entry
        requires { start < 2 ^ 63 }
        ensures { result ≡ record { key = key; first = start; last = start; value = value; rows = 1 } }
    {
        Entry {
            key,
            first: start,
            last: start,
            value: value as i128,
            rows: 1,
        }
    }

    /// The session with these numbers.
    pub(crate) fn of(key: Key, first: u64, last: u64, value: i128, rows: u64) -> Entry
        requires { IsHeld (record { key = key; first = first; last = last; value = value; rows = rows }) }
        ensures { result ≡ record { key = key; first = first; last = last; value = value; rows = rows } }
    {
        Entry {
            key,
            first,
            last,
            value,
            rows,
        }
    }

    /// Both sessions as one of this session's key.
    pub(crate) fn joined(&self, other: &Entry, agg: Agg) -> Entry
        requires { self.now.rows + other.now.rows < 2 ^ 63 }
        ensures { result ≡ joined_sessions (join_of agg) self.now other.now }
    {
        Entry {
            key: self.key,
            first: self.first.min(other.first),
            last: self.last.max(other.last),
            value: join(self.value, other.value, agg),
            rows: self.rows + other.rows,
        }
    }

    pub(crate) fn key(&self) -> Key
        ensures { result ≡ self.now.key }
    {
        self.key
    }

    pub(crate) fn first(&self) -> u64
        ensures { result ≡ self.now.first }
    {
        self.first
    }

    pub(crate) fn last(&self) -> u64
        ensures last { result ≡ self.now.last }
        ensures late { result < 2 ^ 63 }
    {
        self.last
    }

    pub(crate) fn value(&self) -> i128
        ensures { result ≡ self.now.value }
    {
        self.value
    }

    pub(crate) fn rows(&self) -> u64
        ensures { result ≡ self.now.rows }
    {
        self.rows
    }

    /// When the session closes.
    pub(crate) fn closing(&self, gap: u64) -> u64
        requires { gap ≤ 2 ^ 40 }
        ensures { result ≡ closing gap self.now }
    {
        self.last + gap
    }

    /// Whether the session stands before the other one: its key is less, or it has closed where the other one starts.
    pub(crate) fn is_apart(&self, other: &Entry, gap: u64) -> bool
        requires { gap ≤ 2 ^ 40 }
        ensures { result ≡ is_apart gap self.now other.now }
    {
        self.key < other.key || self.key == other.key && self.closing(gap) <= other.first
    }

    /// The row that the session is given as.
    pub(crate) fn row(&self, gap: u64) -> Event
        requires { gap ≤ 2 ^ 40 }
        ensures { result ≡ session_row gap self.now }
    {
        let closing = self.last + gap;
        Event {
            start: closing,
            end: closing + 1,
            key: self.key,
            a: nearest(self.value),
            b: self.rows as i64,
            c: self.first as i64,
            d: self.last as i64,
        }
    }
}

/// The aggregate of all values of both.
fn join(aggregate: i128, other: i128, agg: Agg) -> i128
    requires least { neg_ℤ (pos (2 ^ 126)) ≤ℤ aggregate }
    requires most { aggregate ≤ℤ pos (2 ^ 126 - 1) }
    requires other_least { neg_ℤ (pos (2 ^ 126)) ≤ℤ other }
    requires other_most { other ≤ℤ pos (2 ^ 126 - 1) }
    ensures { result ≡ join_of agg aggregate other }
{
    match agg {
        Agg::Sum => aggregate + other,
        Agg::Least => aggregate.min(other),
        Agg::Greatest => aggregate.max(other),
    }
}

/// The nearest number of 64 bits.
fn nearest(value: i128) -> i64
    ensures { result ≡ clamped value }
{
    value.clamp(i64::MIN as i128, i64::MAX as i128) as i64
}
