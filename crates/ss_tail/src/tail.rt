ghost use Rattle.std.specs.Prelude.{◌≡◌, ◌+◌, ◌-◌, ◌<◌, ◌≤◌, ◌^◌, ◌++◌, ℕ, List, length, slice_get, is_ok};
ghost use Rattle.std.specs.Prelude.{IfOk, Some, if◌then◌else◌};
ghost use Rattle.ss_elem.specs.declared.element.Element.{Element};
ghost use Rattle.ss_state.specs.Tails.{batch_from, batch_len};
ghost use Rattle.ss_tail.specs.Answers.{IsOf, past_end, shown_at, wrote_at};
ghost use Rattle.ss_tail.specs.Held.{IsNumbered, Stands, added, batch_items, begun_at, empty, noted, part, trimmed};
ghost use Rattle.ss_tail.specs.Held.{written};
ghost use Rattle.ss_tail.specs.Pages.{page_count};

use crate::Memory;
use crate::answers::{Batch, Shown, Wrote};
use crate::pages::Pages;
use ss_elem::Element;
use std::alloc::Global;
use std::marker::Model;

/// The newest elements of a stream, which are held in memory, and what is known of those before them.
#[derive(Drop)]
pub struct Tail {
    pages: Pages,
    seen: u64,
    torn: bool,
    stored: u64,
}

impl Model for Tail {
    ghost use Rattle.std.specs.Prelude.{◌+◌, ◌<◌, ◌^◌, length};
    ghost use Rattle.ss_tail.specs.Held.{TailHeld, held};

    ghost Value = { TailHeld };

    ghost view = { λ t. held t.pages t.seen t.torn t.stored };

    ghost invariant = { λ t. t.pages.from + length t.pages.items < 2 ^ 64 };
}

impl Tail {
    /// The tail of a stream that has just begun.
    pub fn new(alloc: Global) -> Tail
        ensures { result ≡ empty }
    {
        Tail {
            pages: Pages::new(alloc),
            seen: 0,
            torn: false,
            stored: 0,
        }
    }

    /// The number of the first element that the tail holds, or would hold.
    pub fn from(&self) -> u64
        ensures from { result ≡ self.now.numbers.from }
        ensures numbered { IsNumbered self.now }
    {
        self.pages.from()
    }

    /// The number after that of the last element.
    pub fn end(&self) -> u64
        ensures end { result ≡ self.now.numbers.end }
        ensures numbered { IsNumbered self.now }
    {
        self.pages.end()
    }

    /// How many elements of the stream were stored when the tail was last told.
    pub fn seen(&self) -> u64
        ensures { result ≡ self.now.numbers.seen }
    {
        self.seen
    }

    /// Whether the tail was ever lost or restarted.
    pub fn torn(&self) -> bool
        ensures { result ≡ self.now.numbers.torn }
    {
        self.torn
    }

    /// How many writes added an element, at most 2^64 - 1.
    pub fn stored(&self) -> u64
        ensures { result ≡ self.now.numbers.stored }
    {
        self.stored
    }

    /// How many pages of 64 numbers each the elements lie in: page q has the numbers from 64q to 64q + 63.
    pub fn pages(&self) -> u64
        ensures { result ≡ page_count self.now.numbers.from self.now.numbers.end }
    {
        self.pages.count()
    }

    /// Offers the element that has number `n` in the stream; the tail takes it where `n` is its next number.
    pub fn write(&mut self, n: u64, x: &Element) -> Result<Wrote, Memory>
        requires { n + 1 < 2 ^ 64 }
        ensures answer { IfOk result (λ wrote. wrote ≡ wrote_at self.old.numbers n) }
        ensures written { self.new ≡ (if is_ok result then written self.old n x.now else self.old) }
        ensures standing { (list : List Element) (most : ℕ) → Stands list most self.old →
            slice_get list n ≡ Some x.now → n < most → Stands list most self.new }
    {
        let end = self.end();
        if n > end {
            return Ok(Wrote::Gap { end });
        }
        if n < self.pages.from() {
            return Ok(Wrote::Old);
        }
        if n < end {
            return Ok(Wrote::Known);
        }
        self.add(x)?;
        Ok(Wrote::Stored)
    }

    /// Adds the element behind the others.
    fn add(&mut self, x: &Element) -> Result<(), Memory>
        requires { self.old.numbers.end + 1 < 2 ^ 64 }
        ensures { self.new ≡ (if is_ok result then added self.old x.now else self.old) }
    {
        self.pages.push(x)?;
        self.stored = self.stored.saturating_add(1);
        Ok(())
    }

    /// The element that has number `n` in the stream, or why the tail doesn't show it.
    pub fn read(&self, n: u64) -> Shown
        ensures answer { result ≡ shown_at self.now n }
        ensures standing { (list : List Element) (most : ℕ) → Stands list most self.now → IsOf list n result }
    {
        let from = self.pages.from();
        if n < from {
            return Shown::Below { from };
        }
        if n < self.end() {
            return Shown::Item(self.pages.get(n));
        }
        self.past_end()
    }

    /// What is told of a number past the last element.
    fn past_end(&self) -> Shown
        ensures { result ≡ past_end self.now.numbers }
    {
        let end = self.end();
        if self.torn {
            Shown::Torn { end }
        } else {
            Shown::NotYet { end }
        }
    }

    /// The elements that aren't known to be stored, at most so many.
    pub fn batch(&self, most: u32) -> Batch<'_>
        requires most { most ≤ 64 }
        ensures from { result.from ≡ batch_from self.now.numbers }
        ensures items { result.first.now ++ result.rest.now ≡ batch_items self.now most }
        ensures count { length (result.first.now ++ result.rest.now) ≡ batch_len self.now.numbers most }
        ensures standing { (list : List Element) (limit : ℕ) → Stands list limit self.now →
            result.first.now ++ result.rest.now
            ≡ part result.from (length (result.first.now ++ result.rest.now)) list }
    {
        let from = self.seen.max(self.pages.from());
        let (first, rest) = self.pages.slices(from, most as usize);
        Batch { from, first, rest }
    }

    /// Tells the tail that so many elements of the stream are stored.
    pub fn note(&mut self, dur: u64)
        ensures noted { self.new ≡ noted self.old dur }
        ensures standing { (list : List Element) (most : ℕ) → Stands list most self.old →
            dur ≤ length list → dur ≤ most → Stands list most self.new }
    {
        self.seen = self.seen.max(dur);
    }

    /// Drops the elements below number `m`.
    pub fn trim(&mut self, m: u64)
        ensures trimmed { self.new ≡ trimmed self.old m }
        ensures standing { (list : List Element) (most : ℕ) → Stands list most self.old → Stands list most self.new }
    {
        self.drop_below(m);
    }

    fn drop_below(&mut self, m: u64)
        ensures { self.new ≡ trimmed self.old m }
    {
        let from = self.pages.from().max(m.min(self.pages.end()));
        self.pages.drop_below(from);
    }

    /// Drops all elements, and goes on with the number that was last told to be stored; answers how many were dropped.
    pub fn lose(&mut self) -> u64
        ensures lost { self.new ≡ begun_at self.old self.old.numbers.seen }
        ensures count { result ≡ self.old.numbers.end - self.old.numbers.from }
        ensures standing { (list : List Element) (most : ℕ) → Stands list most self.old → Stands list most self.new }
    {
        let lost = self.end() - self.from();
        self.restart(self.seen);
        lost
    }

    /// Drops all elements, and goes on with number `m`, below which all are stored.
    pub fn restart(&mut self, m: u64)
        ensures restarted { self.new ≡ begun_at self.old m }
        ensures standing { (list : List Element) (most : ℕ) → m ≤ length list → m ≤ most → Stands list most self.new }
    {
        self.pages.begin_at(m);
        self.seen = m;
        self.torn = true;
    }
}
