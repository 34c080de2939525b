ghost use Rattle.std.specs.Prelude.{◌≡◌, ◌<◌, IfErr};
ghost use Rattle.std.specs.Result.{result_ok};
ghost use Rattle.ss_elem.specs.Validity.{next_bound, top};
ghost use Rattle.ss_elem.specs.NotNext.{IsNotNext};

use crate::bound::Bound;
use crate::element::{Element, Event};

const TOP_TIME: u64 = 1 << 63;

/// Why an element may not follow in a stream.
#[derive(Clone, Copy, Debug, PartialEq, Eq)]
pub enum NotNext {
    /// The stream has ended.
    AfterEnd,
    /// This time is 2^63 or above; of a row the start is looked at before the end.
    Far { time: u64 },
    /// The row's start is not below its end.
    EmptySpan,
    /// The row starts below the stream's bound.
    Early { start: u64, bound: u64 },
    /// The time of the `Cti` is not above the stream's bound.
    Backward { time: u64, bound: u64 },
}

/// The stream's bound after the element, where the element may follow at this bound; else the first of the
/// reasons against it, in the order in which `NotNext` has them.
pub fn valid_next(bound: Bound, x: &Element) -> Result<Bound, NotNext>
    ensures next { result_ok result ≡ next_bound bound x.now }
    ensures refused { IfErr result (IsNotNext bound x.now) }
{
    if bound.get() == TOP_TIME {
        return Err(NotNext::AfterEnd);
    }
    match x {
        Element::Row(event) => row_next(bound, event),
        Element::Cti(time) => cti_next(bound, *time),
        Element::End => Ok(Bound::TOP),
    }
}

fn row_next(bound: Bound, event: &Event) -> Result<Bound, NotNext>
    requires { bound < top }
    ensures next { result_ok result ≡ next_bound bound (Element.Row event.now) }
    ensures refused { IfErr result (IsNotNext bound (Element.Row event.now)) }
{
    if event.start >= TOP_TIME {
        return Err(NotNext::Far { time: event.start });
    }
    if event.end >= TOP_TIME {
        return Err(NotNext::Far { time: event.end });
    }
    if event.start >= event.end {
        return Err(NotNext::EmptySpan);
    }
    if event.start < bound.get() {
        return Err(NotNext::Early {
            start: event.start,
            bound: bound.get(),
        });
    }
    Ok(bound)
}

fn cti_next(bound: Bound, time: u64) -> Result<Bound, NotNext>
    requires { bound < top }
    ensures next { result_ok result ≡ next_bound bound (Element.Cti time) }
    ensures refused { IfErr result (IsNotNext bound (Element.Cti time)) }
{
    if time >= TOP_TIME {
        return Err(NotNext::Far { time });
    }
    if time <= bound.get() {
        return Err(NotNext::Backward {
            time,
            bound: bound.get(),
        });
    }
    Ok(Bound::at(time))
}
