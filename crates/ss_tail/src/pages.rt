ghost use Rattle.std.specs.Prelude.{◌≡◌, ◌+◌, ◌-◌, ◌<◌, ◌≤◌, ◌^◌, ◌++◌, [], ◌∷◌, IfOk, Some, drop, is_ok, length};
ghost use Rattle.std.specs.Prelude.{if◌then◌else◌, slice_get, take};
ghost use Rattle.ss_tail.specs.Pages.{page_count};

use crate::Memory;
use crate::page::{PAGE, Page};
use crate::page_list::{add, drop_below, page_at};
use ss_elem::Element;
use std::alloc::Global;
use std::collections::VecDeque;
use std::marker::Model;

/// Elements that have numbers one after the other, the first of them `from`. Page q has those from 64q to 64q + 63, and
/// is there exactly where an element of it is.
#[derive(Drop)]
pub(crate) struct Pages {
    /// Each has its elements from its first number on, the first page also those below `from`, which count for nothing.
    pages: VecDeque<Page>,
    from: u64,
    end: u64,
    alloc: Global,
}

impl Model for Pages {
    ghost use Rattle.ss_tail.specs.Pages.{ArePages, Numbered, numbered};

    ghost Value = { Numbered };

    ghost view = { λ p. numbered p.from p.pages.items };

    ghost invariant = { λ p. ArePages p.from p.end p.pages.items };
}

impl Pages {
    ghost use Rattle.ss_tail.specs.Pages.{Numbered};

    /// No elements; the first will have number 0.
    pub(crate) fn new(alloc: Global) -> Pages
        ensures from { result.from ≡ 0 }
        ensures items { result.items ≡ [] }
    {
        Pages {
            pages: VecDeque::new(alloc),
            from: 0,
            end: 0,
            alloc,
        }
    }

    pub(crate) fn from(&self) -> u64
        ensures { result ≡ self.now.from }
    {
        self.from
    }

    /// The number after that of the last element.
    pub(crate) fn end(&self) -> u64
        ensures { result ≡ self.now.from + length self.now.items }
    {
        self.end
    }

    /// How many pages there are.
    pub(crate) fn count(&self) -> u64
        ensures { result ≡ page_count self.now.from (self.now.from + length self.now.items) }
    {
        self.pages.len() as u64
    }

    /// Adds an element behind the others. Where it begins a page for which there is no memory, all is as before.
    pub(crate) fn push(&mut self, x: &Element) -> Result<(), Memory>
        requires { self.old.from + length self.old.items + 1 < 2 ^ 64 }
        ensures from { self.new.from ≡ self.old.from }
        ensures items { self.new.items ≡ (if is_ok result then self.old.items ++ x.now ∷ [] else self.old.items) }
    {
        add(&mut self.pages, self.alloc, self.from, self.end, x)?;
        self.end += 1;
        Ok(())
    }

    /// The element that has number `n`.
    pub(crate) fn get(&self, n: u64) -> Element
        requires from { self.now.from ≤ n }
        requires within { n < self.now.from + length self.now.items }
        ensures { slice_get self.now.items (n - self.now.from) ≡ Some result }
    {
        let page = page_at(&self.pages, (n / PAGE - self.from / PAGE) as usize);
        page[(n % PAGE) as usize]
    }

    /// At most so many elements from number `n` on, as the parts of them in one page and in the next.
    pub(crate) fn slices(&self, n: u64, most: usize) -> (&[Element], &[Element])
        requires from { self.now.from ≤ n }
        requires most { most ≤ 64 }
        ensures { result.0.now ++ result.1.now ≡ take most (drop (n - self.now.from) self.now.items) }
    {
        if n >= self.end {
            return (&[], &[]);
        }
        let q = (n / PAGE - self.from / PAGE) as usize;
        let place = (n % PAGE) as usize;
        let first = part(page_at(&self.pages, q), place, most);
        let rest = part(page_at(&self.pages, q + 1), 0, most - first.len());
        (first, rest)
    }

    /// Drops the elements below number `m`, and each page of which nothing is left.
    pub(crate) fn drop_below(&mut self, m: u64)
        requires from { self.old.from ≤ m }
        requires end { m ≤ self.old.from + length self.old.items }
        ensures from { self.new.from ≡ m }
        ensures items { self.new.items ≡ drop (m - self.old.from) self.old.items }
    {
        drop_below(&mut self.pages, self.from, self.end, m);
        self.from = m;
    }

    /// Drops all elements; the next will have number `m`.
    pub(crate) fn begin_at(&mut self, m: u64)
        ensures from { self.new.from ≡ m }
        ensures items { self.new.items ≡ [] }
    {
        self.pages.clear();
        self.from = m;
        self.end = m;
    }
}

/// At most so many of these elements, from the one at this place on.
fn part(items: &[Element], place: usize, most: usize) -> &[Element]
    requires { place ≤ length items.now }
    ensures { result.now ≡ take most (drop place items.now) }
{
    let items = &items[place..];
    &items[..most.min(items.len())]
}
