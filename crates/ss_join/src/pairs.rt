ghost use Rattle.std.specs.Prelude.{◌≡◌, ◌+◌, ◌≤◌, ◌<◌, ◌^◌, ◌++◌, ℕ, length, count_by};
ghost use Rattle.ss_join.specs.States.{joined_elements};
ghost use Rattle.ss_meaning.specs.Join.{joined, joined_from};

use crate::matching::matches;
use crate::side::Side;
use ss_elem::{Element, Event, Out};

/// The time that a left and a right row have in common, with the first value of each as its first two, and the third
/// value of each as its last two.
fn joined(left: &Event, right: &Event) -> Event
    ensures { result ≡ joined left.now right.now }
{
    Event {
        start: left.start.max(right.start),
        end: left.end.min(right.end),
        key: left.key,
        a: left.a,
        b: right.a,
        c: left.c,
        d: right.c,
    }
}

/// The same, of a row of this input and one of the other.
fn joined_from(input: u32, x: &Event, y: &Event) -> Event
    ensures { result ≡ joined_from input x.now y.now }
{
    if input == 0 {
        joined(x, y)
    } else {
        joined(y, x)
    }
}

/// Appends what a row of this input gives with rows of the other one, in their order, and leaves a place.
pub(crate) fn give(input: u32, row: &Event, others: &Side, out: &mut Out)
    requires { length others.now + 1 ≤ out.old.spare }
    ensures elements { out.new.elements ≡ out.old.elements ++ joined_elements input row.now others.now }
    ensures place { 1 ≤ out.new.spare }
{
    for (_, other) in others.of_key(&row.key) {
        if matches(row, other) {
            out.push(Element::Row(joined_from(input, row, other)));
        }
    }
}

/// How many of these rows of the other input a row joins.
pub fn count(row: &Event, others: &Side) -> u64
    ensures given { (input : ℕ) → result ≡ length (joined_elements input row.now others.now) }
    ensures few { result < 2 ^ 63 }
{
    let mut count = 0;
    for (_, other) in others.of_key(&row.key) {
        if matches(row, other) {
            count += 1;
        }
    }
    count
}
