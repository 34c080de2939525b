ghost use Rattle.std.specs.Prelude.{◌≡◌, ◌+◌, ◌≤◌, ◌<◌, ◌++◌, [], ◌∷◌, length, IsOk, OnOk, OnErr};

use crate::element::Element;
use std::alloc::{AllocError, Global};
use std::marker::Model;

/// Elements that an operator gives, in their order. It grows only into places that were reserved before, so that
/// what is given at one element is appended whole or not at all.
#[derive(Drop)]
pub struct Out {
    elements: Vec<Element>,
}

impl Model for Out {
    ghost use Rattle.std.specs.Prelude.{◌-◌, vec_len, vec_capacity};
    ghost use Rattle.ss_elem.specs.OutList.{OutList};

    ghost Value = { OutList };

    ghost view = { λ out.
        record { elements = out.elements.items; spare = vec_capacity out.elements - vec_len out.elements } };
}

impl Out {
    /// A list without elements, which takes no memory.
    pub fn new(alloc: Global) -> Out
        ensures { result.elements ≡ [] }
    {
        Out {
            elements: Vec::new(alloc),
        }
    }

    /// Reserves places, so that at least `more` are spare.
    pub fn reserve(&mut self, more: u64) -> Result<(), AllocError>
        ensures elements { self.new.elements ≡ self.old.elements }
        ensures room { OnOk result (more ≤ self.new.spare) }
        ensures keeps { self.old.spare ≤ self.new.spare }
        ensures succeeds { more ≤ self.old.spare → IsOk result }
        ensures err { OnErr result (self.new ≡ self.old) }
    {
        self.elements.reserve(more as usize)
    }

    /// Appends the element in a place that was reserved.
    pub fn push(&mut self, x: Element)
        requires { 0 < self.old.spare }
        ensures elements { self.new.elements ≡ self.old.elements ++ x ∷ [] }
        ensures spare { self.new.spare + 1 ≡ self.old.spare }
    {
        self.elements.push_reserved(x);
    }

    /// Drops all elements. Their places stay reserved.
    pub fn clear(&mut self)
        ensures elements { self.new.elements ≡ [] }
        ensures keeps { self.old.spare ≤ self.new.spare }
    {
        self.elements.clear();
    }

    /// The elements in their order.
    pub fn as_slice(&self) -> &[Element]
        ensures { result.now ≡ self.now.elements }
    {
        self.elements.as_slice()
    }
}
