ghost use Rattle.std.specs.Prelude.{◌≡◌};

use ss_elem::Element;
use std::marker::Model;

/// Elements that stand side by side in one input, up to and with the next `Cti` or `End`, and the two numbers that
/// decide where a merge puts them.
#[derive(Drop)]
pub(crate) struct Segment<'a> {
    bound: u64,
    input: u32,
    elements: &'a [Element],
}

impl<'a> Model for Segment<'a> {
    ghost use Rattle.ss_meaning.specs.Segments.{Segment as Piece};

    ghost Value = { Piece };

    ghost view = { λ s. record { bound = s.bound; input = s.input; elements = s.elements.now } };
}

impl<'a> Segment<'a> {
    /// The elements of an input that stand behind this bound.
    pub(crate) fn new(bound: u64, input: u32, elements: &'a [Element]) -> Segment<'a>
        ensures { result ≡ record { bound = bound; input = input; elements = elements.now } }
    {
        Segment {
            bound,
            input,
            elements,
        }
    }

    /// The bound of what stands before the elements, and then the number of the input.
    pub(crate) fn key(&self) -> (u64, u32)
        ensures bound { result.0 ≡ self.now.bound }
        ensures input { result.1 ≡ self.now.input }
    {
        (self.bound, self.input)
    }

    /// The elements.
    pub(crate) fn elements(&self) -> &'a [Element]
        ensures { result.now ≡ self.now.elements }
    {
        self.elements
    }
}
