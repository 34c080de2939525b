ghost use Rattle.std.specs.Prelude.{◌≡◌, ◌+◌, ◌^◌, ◌<◌, ◌≤◌, pos, neg_ℤ, ◌≤ℤ◌, Some};
ghost use Rattle.ss_meaning.specs.EntryLists.{row_of_entry};
ghost use Rattle.ss_meaning.specs.Window.{clamped};
ghost use Rattle.ss_window.specs.Held.{join_of, entry_of, grown_total, IsHeld};

use ss_elem::{Event, Key};
use ss_expr::Agg;
use std::marker::Model;

/// What a window remembers of one end and one key: the sum, the least or the greatest of the values, and how many
/// rows had one.
#[derive(Clone, Copy)]
pub(crate) struct Total {
    value: i128,
    rows: u64,
}

impl Model for Total {
    ghost use Rattle.ss_window.specs.Held.{EntryTotal, IsHeld};

    ghost Value = { EntryTotal };

    ghost view = { λ t. record { value = t.value; rows = t.rows } };

    ghost invariant = { λ t. IsHeld (record { value = t.value; rows = t.rows }) };

    ghost inverse = { λ t. record { value = t.value; rows = t.rows } };
}

impl Total {
    /// The total of one row.
    pub(crate) fn single(value: i64) -> Total
        ensures { result ≡ record { value = value; rows = 1 } }
    {
        Total {
            value: value as i128,
            rows: 1,
        }
    }

    /// The total with these numbers.
    pub(crate) fn of(value: i128, rows: u64) -> Total
        requires { IsHeld (record { value = value; rows = rows }) }
        ensures { result ≡ record { value = value; rows = rows } }
    {
        Total { value, rows }
    }

    /// Joins the value of one more row.
    pub(crate) fn add(&mut self, value: i64, agg: Agg)
        requires { self.old.rows + 1 < 2 ^ 63 }
        ensures { self.new ≡ grown_total (join_of agg) value (Some self.old) }
    {
        self.value = join(self.value, value, agg);
        self.rows += 1;
    }

    pub(crate) fn value(&self) -> i128
        ensures { result ≡ self.now.value }
    {
        self.value
    }

    pub(crate) fn rows(&self) -> u64
        ensures { result ≡ self.now.rows }
    {
        self.rows
    }

    /// The row that the window gives for the total at this end and key.
    pub(crate) fn row(&self, end: u64, key: &Key, hop: u64) -> Event
        requires near { end ≤ 2 ^ 63 }
        requires hop { hop ≤ 2 ^ 40 }
        ensures { result ≡ row_of_entry hop (entry_of end key.now self.now) }
    {
        Event {
            start: end,
            end: end + hop,
            key: *key,
            a: nearest(self.value),
            b: self.rows as i64,
            c: 0,
            d: 0,
        }
    }
}

/// The aggregate with one more value.
fn join(aggregate: i128, value: i64, agg: Agg) -> i128
    requires least { neg_ℤ (pos (2 ^ 126)) ≤ℤ aggregate }
    requires most { aggregate ≤ℤ pos (2 ^ 126) }
    ensures { result ≡ join_of agg aggregate value }
{
    let value = value as i128;
    match agg {
        Agg::Sum => aggregate + value,
        Agg::Least => aggregate.min(value),
        Agg::Greatest => aggregate.max(value),
    }
}

/// The nearest number of 64 bits.
fn nearest(value: i128) -> i64
    ensures { result ≡ clamped value }
{
    value.clamp(i64::MIN as i128, i64::MAX as i128) as i64
}
