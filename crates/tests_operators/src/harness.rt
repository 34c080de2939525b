ghost use Rattle.std.specs.Prelude.{◌^◌, IsTrue};
ghost use Rattle.ss_meaning.specs.Jobs.{IsBefore};

use ss_elem::{Bound, Element, Out, valid_next};
use ss_events::{Late, read_events};
use ss_window::Window;
use std::alloc::Global;
use std::process::Abort;
use std::test::Fail;

pub(crate) fn is_early(x: &Element) -> bool
    ensures { IsTrue result → IsBefore (2 ^ 63) x.now }
{
    match x {
        Element::Row(row) => row.start < 1 << 63 && row.end < 1 << 63,
        Element::Cti(time) => *time < 1 << 63,
        Element::End => true,
    }
}

/// Takes the elements, which follow at this bound, and tells the bound behind them.
pub(crate) fn take(
    rt: &impl Abort,
    window: &mut Window,
    bound: Bound,
    elements: &[Element],
    out: &mut Out,
) -> Result<Bound, Fail> {
    let mut bound = bound;
    for x in elements {
        bound = valid_next(bound, x)?;
        assert!(rt; is_early(x) && window.counts_few());
        window.step(x, bound, out)?;
    }
    Ok(bound)
}

/// The elements of an event file.
pub(crate) fn elements_of(alloc: Global, text: &str) -> Result<Vec<Element>, Fail> {
    Ok(read_events(alloc, text.as_bytes(), Late::Refuse)?)
}
