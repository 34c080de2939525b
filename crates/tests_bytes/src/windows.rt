ghost use Rattle.std.specs.Prelude.{◌^◌, IsTrue};
ghost use Rattle.ss_meaning.specs.Jobs.{IsBefore};

use ss_elem::{Bound, Element, Out, valid_next};
use ss_events::{Late, read_events};
use ss_expr::{Agg, Field};
use ss_window::{ImageFault, Window};
use std::alloc::Global;
use std::test::Fail;

// The image of two windows after one row of the key k with the value 3.
const TWO_ENTRIES: [u8; 100] = [
    0, 0, 0, 2, // two entries
    0, 0, 0, 0, 0, 0, 0, 10, // the first end
    0x6b, 0, 0, 0, 0, 0, 0, 0, 0, 0, 0, 0, 0, 0, 0, 0, // the key
    0, 0, 0, 0, 0, 0, 0, 0, 0, 0, 0, 0, 0, 0, 0, 3, // the sum
    0, 0, 0, 0, 0, 0, 0, 1, // the count
    0, 0, 0, 0, 0, 0, 0, 20, // the second end
    0x6b, 0, 0, 0, 0, 0, 0, 0, 0, 0, 0, 0, 0, 0, 0, 0, // the key
    0, 0, 0, 0, 0, 0, 0, 0, 0, 0, 0, 0, 0, 0, 0, 3, // the sum
    0, 0, 0, 0, 0, 0, 0, 1, // the count
];

#[test]
fn a_window_is_put_as_its_entries(rt: HostRuntime) -> Result<(), Fail> {
    let list = read_events(rt.alloc(), b"event,5,9,k,3,0\n", Late::Refuse)?;
    let mut window = Window::new(rt.alloc(), 20, 10, Agg::Sum, Field::A);
    let mut out = Out::new(rt.alloc());
    assert!(rt; list.len() == 2 && is_early(&list[0]) && window.counts_few());
    window.step(&list[0], Bound::ZERO, &mut out)?;
    assert!(rt; window.held() == 2);
    let mut image = Vec::new(rt.alloc());
    window.image(&mut image)?;
    assert!(rt; image.as_slice() == TWO_ENTRIES.as_slice());
    Ok(())
}

fn is_early(x: &Element) -> bool
    ensures { IsTrue result → IsBefore (2 ^ 63) x.now }
{
    match x {
        Element::Row(row) => row.start < 1 << 63 && row.end < 1 << 63,
        Element::Cti(time) => *time < 1 << 63,
        Element::End => true,
    }
}

/// Why the bytes are no image of a window of hop 10 at this bound.
fn fault_of(alloc: Global, low: Bound, bytes: &[u8]) -> Option<ImageFault> {
    Window::of_image(alloc, 20, 10, Agg::Sum, Field::A, low, bytes).err()
}

#[test]
fn an_image_of_a_window_has_all_of_its_bytes(rt: HostRuntime) -> Result<(), Fail> {
    for len in 0..100 {
        let found = fault_of(rt.alloc(), Bound::ZERO, &TWO_ENTRIES[..len]);
        assert!(rt; found == Some(ImageFault::At { at: 0 }), "{len}");
    }
    assert!(rt; fault_of(rt.alloc(), Bound::ZERO, &TWO_ENTRIES).is_none());
    let closed = valid_next(Bound::ZERO, &Element::Cti(10))?;
    let found = fault_of(rt.alloc(), closed, &TWO_ENTRIES);
    assert!(rt; found == Some(ImageFault::At { at: 4 }));
    Ok(())
}
