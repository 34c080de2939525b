ghost use Rattle.std.specs.Prelude.{◌≡◌, ◌≤◌, ◌+◌, ◌++◌, map};
ghost use Rattle.std.specs.Option.{option_to_list};
ghost use Rattle.ss_elem.specs.declared.element.Element.TheVariants.{Row};
ghost use Rattle.ss_meaning.specs.Low.{advance};

use ss_elem::{Bound, Element, Event, Out};

/// Appends a row where there is one.
pub(crate) fn push_row(out: &mut Out, row: Option<Event>)
    requires { 1 ≤ out.old.spare }
    ensures elements { out.new.elements ≡ out.old.elements ++ map (λ row. Row row) (option_to_list row) }
    ensures spare { out.old.spare ≤ out.new.spare + 1 }
{
    match row {
        Some(row) => out.push(Element::Row(row)),
        None => (),
    }
}

/// Appends an element where there is one.
pub(crate) fn push_mark(out: &mut Out, mark: Option<Element>)
    requires { 1 ≤ out.old.spare }
    ensures { out.new.elements ≡ out.old.elements ++ option_to_list mark }
{
    match mark {
        Some(mark) => out.push(mark),
        None => (),
    }
}

/// The element that tells how far all inputs have come, where that rose: `Cti`, and `End` where all have ended.
pub(crate) fn told_rise(before: Bound, after: Bound) -> Option<Element>
    ensures { option_to_list result ≡ advance before after }
{
    if before >= after {
        return None;
    }
    if after < Bound::TOP {
        Some(Element::Cti(after.get()))
    } else {
        Some(Element::End)
    }
}
