//! A list of byte strings that grows at its end and is cut at its front.

ghost use Rattle.std.specs.Prelude.{◌≡◌, [], ◌∷◌, ◌++◌, ◌+◌, ◌-◌, ◌<◌, ◌≤◌, true, length, drop, map, slice_get};
ghost use Rattle.std.specs.Prelude.{Some, option_map, vec_len, OnOk, OnErr};
ghost use Rattle.std.specs.List.{slice_range};
ghost use Rattle.ss_outside.specs.Pieces.{are_ends, pieces, start_at};

use crate::Memory;
use std::alloc::Global;
use std::marker::Model;

/// Byte strings in order.
///
/// They stand one behind another in one buffer. Those that are dropped stay in it until they take more room than the
/// others, so that dropping a few doesn't move the others, and what is kept is at most a few times what is held.
#[derive(Drop)]
pub(crate) struct Records {
    bytes: Vec<u8>,
    /// Where each string ends.
    ends: Vec<usize>,
    /// How many strings at the front are dropped.
    dropped: usize,
}

impl Model for Records {
    ghost use Rattle.std.specs.Prelude.{◌≡◌, ◌≤◌, List, ℕ, true, drop, length};
    ghost use Rattle.ss_outside.specs.Pieces.{are_ends, pieces};

    ghost Value = { List (List ℕ) };

    ghost view = { λ records. drop records.dropped (pieces records.bytes.items 0 records.ends.items) };

    ghost invariant = { λ records. (records.dropped ≤ length records.ends.items)
        × (are_ends 0 records.ends.items (length records.bytes.items) ≡ true) };
}

impl Records {
    /// None. It takes no memory.
    pub(crate) fn new(alloc: Global) -> Records
        ensures { result ≡ [] }
    {
        Records {
            bytes: Vec::new(alloc),
            ends: Vec::new(alloc),
            dropped: 0,
        }
    }

    /// Puts the bytes behind the last.
    pub(crate) fn push(&mut self, bytes: &[u8]) -> Result<(), Memory>
        ensures pushed { OnOk result (self.new ≡ self.old ++ bytes.now ∷ []) }
        ensures kept { OnErr result (self.new ≡ self.old) }
    {
        push_piece(&mut self.bytes, &mut self.ends, bytes)?;
        Ok(())
    }

    /// The bytes at that place.
    pub(crate) fn get(&self, place: usize) -> Option<&[u8]>
        ensures { option_map (λ bytes. bytes.now) result ≡ slice_get self.now place }
    {
        if place < self.ends.len() - self.dropped {
            Some(piece(&self.bytes, &self.ends, self.dropped + place))
        } else {
            None
        }
    }

    /// Takes so many away from the front, or all where there are fewer.
    pub(crate) fn drop_front(&mut self, count: usize)
        ensures { self.new ≡ drop count self.old }
    {
        self.skip(count);
        self.settle();
    }

    /// Drops so many at the front, or all where there are fewer, and leaves them in the buffer.
    fn skip(&mut self, count: usize)
        ensures { self.new ≡ drop count self.old }
    {
        self.dropped += count.min(self.ends.len() - self.dropped);
    }

    /// Takes the dropped strings out of the buffer where they take more room than the others.
    fn settle(&mut self)
        ensures { self.new ≡ self.old }
    {
        let gone = start_of(&self.ends, self.dropped) / 8;
        let held = (self.bytes.len() / 8).saturating_sub(gone);
        let held = held.saturating_add(self.ends.len() - self.dropped);
        if held < gone.saturating_add(self.dropped) {
            self.compact();
        }
    }

    /// Takes the dropped strings out of the buffer.
    fn compact(&mut self)
        ensures { self.new ≡ self.old }
    {
        take_out(&mut self.bytes, &mut self.ends, self.dropped);
        self.dropped = 0;
    }
}

/// Where the string at this place begins; behind the last, where the bytes end.
fn start_of(ends: &[usize], place: usize) -> usize
    requires { place ≤ length ends.now }
    ensures { result ≡ start_at 0 ends.now place }
{
    if place == 0 { 0 } else { ends[place - 1] }
}

/// The string at this place.
fn piece<'a>(bytes: &'a [u8], ends: &[usize], place: usize) -> &'a [u8]
    requires place { place < length ends.now }
    requires ends { are_ends 0 ends.now (length bytes.now) ≡ true }
    ensures { slice_get (pieces bytes.now 0 ends.now) place ≡ Some result.now }
{
    part(bytes, start_of(ends, place), ends[place])
}

/// The bytes from one place up to another.
fn part(bytes: &[u8], start: usize, end: usize) -> &[u8]
    requires order { start ≤ end }
    requires within { end ≤ length bytes.now }
    ensures { result.now ≡ slice_range bytes.now start end }
{
    &bytes[start..end]
}

/// Puts a string behind the others.
fn push_piece(bytes: &mut Vec<u8>, ends: &mut Vec<usize>, more: &[u8]) -> Result<(), Memory>
    requires { are_ends 0 ends.old.items (length bytes.old.items) ≡ true }
    ensures pushed { OnOk result (pieces bytes.new.items 0 ends.new.items
        ≡ pieces bytes.old.items 0 ends.old.items ++ more.now ∷ []) }
    ensures kept { OnErr result (pieces bytes.new.items 0 ends.new.items ≡ pieces bytes.old.items 0 ends.old.items) }
    ensures longer { length ends.old.items ≤ length ends.new.items }
    ensures ends { are_ends 0 ends.new.items (length bytes.new.items) ≡ true }
{
    ends.try_reserve(1)?;
    bytes.extend_from_slice(more)?;
    ends.push_reserved(bytes.len());
    Ok(())
}

/// Takes so many strings out at the front.
fn take_out(bytes: &mut Vec<u8>, ends: &mut Vec<usize>, count: usize)
    requires count { count ≤ length ends.old.items }
    requires ends { are_ends 0 ends.old.items (length bytes.old.items) ≡ true }
    ensures left { pieces bytes.new.items 0 ends.new.items ≡ drop count (pieces bytes.old.items 0 ends.old.items) }
    ensures ends { are_ends 0 ends.new.items (length bytes.new.items) ≡ true }
{
    let start = start_of(ends, count);
    keep_from(bytes, start);
    keep_from(ends, count);
    lower(ends, start);
}

/// Takes the first elements out, and gives back memory that is more than twice what the others need.
fn keep_from<T: Copy + Drop>(items: &mut Vec<T>, start: usize)
    requires { start ≤ vec_len items.old }
    ensures { items.new.items ≡ drop start items.old.items }
{
    let held = items.len() - start;
    items.copy_within(start.., 0);
    items.truncate(held);
    items.shrink_to(held.saturating_mul(2));
}

/// Lowers each number.
fn lower(numbers: &mut [usize], by: usize)
    ensures { numbers.new ≡ map (λ number. number - by) numbers.old }
{
    for number in numbers.iter_mut() {
        *number = number.saturating_sub(by);
    }
}
