//! How far the one input of an operator has come.
ghost use Rattle.std.specs.Prelude.{◌≡◌, ◌≤◌, ◌^◌, ◌++◌};
ghost use Rattle.std.specs.Option.{option_to_list};
ghost use Rattle.ss_meaning.specs.Bound.{bound_after};
ghost use Rattle.ss_meaning.specs.Jobs.{IsBefore};
ghost use Rattle.ss_meaning.specs.Low.{advance};

use ss_elem::{Bound, Element, Out};

/// So many elements fit no memory.
pub(crate) const MOST_ARRIVALS: usize = 1 << 62;

/// The bound of the input behind an element.
pub(crate) fn bound_behind(bound: Bound, x: &Element) -> Bound
    requires { IsBefore (2 ^ 63) x.now }
    ensures { result ≡ bound_after bound x.now }
{
    match x {
        Element::Row(_) => bound,
        Element::Cti(time) => Bound::at(*time),
        Element::End => Bound::TOP,
    }
}

/// Appends what tells that the bound rose, where it did.
pub(crate) fn push_rise(out: &mut Out, before: Bound, after: Bound)
    requires { 1 ≤ out.old.spare }
    ensures { out.new.elements ≡ out.old.elements ++ advance before after }
{
    match told_rise(before, after) {
        Some(mark) => out.push(mark),
        None => (),
    }
}

fn told_rise(before: Bound, after: Bound) -> Option<Element>
    ensures { option_to_list result ≡ advance before after }
{
    if before >= after {
        return None;
    }
    if after < Bound::TOP {
        Some(Element::Cti(after.get()))
    } else {
        Some(Element::End)
    }
}
