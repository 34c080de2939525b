ghost use Rattle.std.specs.Prelude.{◌≡◌, ◌+◌, ◌++◌, [], ◌∷◌, IfOk, drop, is_ok, length, if◌then◌else◌};

use crate::Memory;
use ss_elem::Element;
use std::alloc::Global;
use std::marker::Model;

/// How many elements a page has room for.
pub(crate) const PAGE: u64 = 64;

/// Elements whose room was taken at once.
#[derive(Drop)]
pub(crate) struct Page {
    items: Vec<Element>,
}

impl Model for Page {
    ghost use Rattle.std.specs.Prelude.{List};
    ghost use Rattle.ss_elem.specs.declared.element.Element.{Element};

    ghost Value = { List Element };

    ghost view = { λ p. p.items.items };
}

impl Page {
    /// A page with an element at this place; those before it are the same.
    pub(crate) fn with(alloc: Global, place: usize, x: &Element) -> Result<Page, Memory>
        ensures count { IfOk result (λ page. length page ≡ place + 1) }
        ensures last { IfOk result (λ page. drop place page ≡ x.now ∷ []) }
    {
        let mut items = Vec::with_capacity(alloc, PAGE as usize)?;
        for same in 0..place {
            items.push(*x)?;
        }
        items.push(*x)?;
        Ok(Page { items })
    }

    pub(crate) fn as_slice(&self) -> &[Element]
        ensures { result.now ≡ self.now }
    {
        self.items.as_slice()
    }

    pub(crate) fn push(&mut self, x: &Element) -> Result<(), Memory>
        ensures { self.new ≡ (if is_ok result then self.old ++ x.now ∷ [] else self.old) }
    {
        self.items.push(*x)?;
        Ok(())
    }
}
