//! Pages one after the other, and what becomes of them.
ghost use Rattle.std.specs.Prelude.{◌≡◌, ◌+◌, ◌-◌, ◌%◌, ◌<◌, ◌≤◌, ◌++◌, [], ◌∷◌, OnErr, OnOk, drop, is_ok, length};
ghost use Rattle.std.specs.Prelude.{if◌then◌else◌, slice_index_or};
ghost use Rattle.ss_tail.specs.Pages.{AddsPage, ArePages, joined, with_more};

use crate::Memory;
use crate::page::{PAGE, Page};
use ss_elem::Element;
use std::alloc::Global;
use std::collections::VecDeque;

/// The elements of one of these pages, none where there is no such page.
pub(crate) fn page_at(pages: &VecDeque<Page>, q: usize) -> &[Element]
    ensures { result.now ≡ slice_index_or pages.now.items q [] }
{
    match pages.get(q) {
        Some(page) => page.as_slice(),
        None => &[],
    }
}

/// Of the pages of the numbers from `from` up to and without `end`, drops those that have none from `m` on.
pub(crate) fn drop_below(pages: &mut VecDeque<Page>, from: u64, end: u64, m: u64)
    requires pages { ArePages from end pages.old.items }
    requires from { from ≤ m }
    requires end { m ≤ end }
    ensures pages { ArePages m end pages.new.items }
    ensures items { drop (m % 64) (joined pages.new.items)
        ≡ drop (m - from) (drop (from % 64) (joined pages.old.items)) }
{
    if m == end {
        pages.clear();
    } else {
        drop_front(pages, (m / PAGE - from / PAGE) as usize);
    }
}

/// Drops so many pages from the front.
fn drop_front(pages: &mut VecDeque<Page>, count: usize)
    requires { count ≤ length pages.old.items }
    ensures { pages.new.items ≡ drop count pages.old.items }
{
    for gone in 0..count {
        pages.pop_front();
    }
}

/// Adds the element of number `end` to the pages of the numbers from `from` up to and without it. Where there is no
/// memory for it, all is as before.
pub(crate) fn add(
    pages: &mut VecDeque<Page>,
    alloc: Global,
    from: u64,
    end: u64,
    x: &Element,
) -> Result<(), Memory>
    requires { ArePages from end pages.old.items }
    ensures pages { OnOk result (ArePages from (end + 1) pages.new.items) }
    ensures items { OnOk result (drop (from % 64) (joined pages.new.items)
        ≡ drop (from % 64) (joined pages.old.items) ++ x.now ∷ []) }
    ensures err { OnErr result (pages.new.items ≡ pages.old.items) }
{
    let place = (end % PAGE) as usize;
    if from == end {
        add_page(pages, alloc, place, x)
    } else if place == 0 {
        add_page(pages, alloc, 0, x)
    } else {
        add_on_last(pages, x)
    }
}

/// Adds a page with the element at this place.
fn add_page(
    pages: &mut VecDeque<Page>,
    alloc: Global,
    place: usize,
    x: &Element,
) -> Result<(), Memory>
    requires { place < 64 }
    ensures ok { OnOk result (AddsPage pages.old.items place x.now pages.new.items) }
    ensures err { OnErr result (pages.new.items ≡ pages.old.items) }
{
    let page = Page::with(alloc, place, x)?;
    pages.push_back(page)?;
    Ok(())
}

/// Adds the element to the last page.
fn add_on_last(pages: &mut VecDeque<Page>, x: &Element) -> Result<(), Memory>
    ensures { pages.new.items ≡ (if is_ok result then with_more pages.old.items x.now else pages.old.items) }
{
    match pages.back_mut() {
        Some(last) => last.push(x),
        None => Ok(()),
    }
}
