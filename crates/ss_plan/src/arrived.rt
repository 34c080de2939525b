use ss_elem::Element;
use std::marker::Model;

/// An element with the number of the input from which it came.
#[derive(Drop)]
pub(crate) struct Arrived {
    pub(crate) input: u32,
    pub(crate) element: Element,
}

impl Model for Arrived {
    ghost use Rattle.ss_meaning.specs.Merge.{Arrival};

    ghost Value = { Arrival };

    ghost view = { λ x. record { input = x.input; element = x.element } };
}
