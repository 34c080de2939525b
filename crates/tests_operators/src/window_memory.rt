use crate::harness::{elements_of, is_early};
use ss_elem::{Bound, Element, Out, valid_next};
use ss_expr::{Agg, Field};
use ss_window::Window;
use std::alloc::Global;
use std::process::Abort;
use std::test::Fail;

/// Event files, each with how many rows the sums of 20 by 10 give for it.
const FILES: [(&str, usize); 2] = [
    // At 10 k and q; at 20 a, k and q; at 30 a and q; at 40 and at 50 z.
    (
        "event,5,9,q,3,7\nevent,6,8,k,-4,1\ncti,7\nevent,9,20,k,5,2\ncti,10\nevent,12,13,a,8,3\n\
        event,15,16,q,8,-9\ncti,30\nevent,31,40,z,2,2\n",
        9,
    ),
    // The second row is of a key that one of its ends has, and of a later end that is new. At 10 q; at 20 and at 30 k
    // and q.
    (
        "event,5,9,q,3,7\ncti,10\nevent,12,13,q,4,1\nevent,13,14,k,2,2\n",
        5,
    ),
];

/// The image of a window.
fn image_of(rt: &impl Abort, alloc: Global, window: &Window) -> Result<Vec<u8>, Fail> {
    let mut image = Vec::new(alloc);
    assert!(rt; window.held() < 1 << 25);
    window.image(&mut image)?;
    Ok(image)
}

/// Takes an element. Where memory is refused, all is as before, and the element may be taken once more.
fn take_again(
    rt: &impl Abort,
    alloc: Global,
    window: &mut Window,
    x: &Element,
    low: Bound,
    out: &mut Out,
) -> Result<(), Fail> {
    let before = image_of(rt, alloc, window)?;
    let (panes, held) = (window.panes(), window.held());
    let given: Vec<Element> = out.as_slice().to_vec(alloc)?;
    assert!(rt; is_early(x) && window.counts_few());
    if window.step(x, low, out).is_err() {
        let after = image_of(rt, alloc, window)?;
        assert!(rt; after.as_slice() == before.as_slice());
        assert!(rt; window.panes() == panes && window.held() == held);
        assert!(rt; out.as_slice() == given.as_slice());
        assert!(rt; window.counts_few());
        window.step(x, low, out)?;
    }
    Ok(())
}

/// Run with each allocation refused in turn, the test shows what a refused step leaves: a total that grew before the
/// refusal is as before, and no new pane stays.
#[test]
fn a_step_that_is_refused_memory_changes_nothing(rt: HostRuntime) -> Result<(), Fail> {
    for (file, rows) in FILES {
        let mut window = Window::new(rt.alloc(), 20, 10, Agg::Sum, Field::A);
        let mut out = Out::new(rt.alloc());
        let mut low = Bound::ZERO;
        for x in &elements_of(rt.alloc(), file)? {
            low = valid_next(low, x)?;
            take_again(&rt, rt.alloc(), &mut window, x, low, &mut out)?;
        }
        assert!(rt; window.held() == 0 && window.panes() == 0);
        assert!(rt; out.as_slice().len() == rows);
    }
    Ok(())
}
