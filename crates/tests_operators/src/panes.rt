use crate::harness::{elements_of, take};
use ss_elem::{Bound, Element, LineBuf, Out, line};
use ss_expr::{Agg, Field, Spec};
use ss_merge::Merger;
use ss_oper::Oper;
use ss_window::Window;
use std::alloc::Global;
use std::test::Fail;

/// A row of each of a thousand keys, from k000 to k999, which all start at 0. The keys stand in the order in which 7
/// steps through them.
fn rows_of_many_keys(alloc: Global) -> Result<String, Fail> {
    let mut text = String::new(alloc);
    for number in 0..1000_u32 {
        let key = number.saturating_mul(7) % 1000;
        let row = format!(in alloc; "event,0,1,k{key:03},{key},0\n")?;
        text.push_str(&row)?;
    }
    Ok(text)
}

/// The lines of what was given.
fn lines_of(alloc: Global, given: &[Element]) -> Result<Vec<u8>, Fail> {
    let mut lines = Vec::new(alloc);
    let mut buf = LineBuf::new();
    for x in given {
        line(x, &mut buf);
        lines.extend_from_slice(buf.as_slice())?;
    }
    Ok(lines)
}

/// What the window of 64 ends from 1 on gives for them: at each end a row of each key, in the order of the keys.
fn rows_of_each_end(alloc: Global) -> Result<String, Fail> {
    let mut text = String::new(alloc);
    for end in 1..65_u32 {
        let next = end.saturating_add(1);
        for key in 0..1000_u32 {
            let row = format!(in alloc; "event,{end},{next},k{key:03},{key},1\n")?;
            text.push_str(&row)?;
        }
    }
    Ok(text)
}

#[test]
fn a_thousand_keys_stand_in_64_panes(rt: HostRuntime) -> Result<(), Fail> {
    let text = rows_of_many_keys(rt.alloc())?;
    let elements = elements_of(rt.alloc(), &text)?;
    let mut window = Window::new(rt.alloc(), 64, 1, Agg::Sum, Field::A);
    let mut out = Out::new(rt.alloc());
    let (open, end) = elements.split_at(elements.len().saturating_sub(1));
    let bound = take(&rt, &mut window, Bound::ZERO, open, &mut out)?;
    assert!(rt; window.panes() == 64 && window.held() == 64_000);
    take(&rt, &mut window, bound, end, &mut out)?;
    assert!(rt; window.panes() == 0 && window.held() == 0);
    let lines = lines_of(rt.alloc(), out.as_slice())?;
    let rows = rows_of_each_end(rt.alloc())?;
    assert!(rt; lines.as_slice() == rows.as_bytes());
    Ok(())
}

#[test]
fn entries_stay_while_nothing_closes(rt: HostRuntime) -> Result<(), Fail> {
    let mut text = String::from_str(rt.alloc(), "event,5000,5001,k,3,0\n")?;
    for time in 1..5001 {
        let one = format!(in rt.alloc(); "cti,{time}\n")?;
        text.push_str(&one)?;
    }
    let elements = elements_of(rt.alloc(), &text)?;
    let mut window = Window::new(rt.alloc(), 20, 10, Agg::Sum, Field::A);
    let mut out = Out::new(rt.alloc());
    let open = &elements[..elements.len().saturating_sub(1)];
    take(&rt, &mut window, Bound::ZERO, open, &mut out)?;
    assert!(rt; out.as_slice().is_empty() && window.held() == 2);
    Ok(())
}

#[test]
fn bytes_of_a_union_are_refused(rt: HostRuntime) {
    let merger = Merger::new(2);
    let some = Oper::of_image(rt.alloc(), &Spec::Union, &merger, &[0]);
    assert!(rt; some.is_err());
    let none = Oper::of_image(rt.alloc(), &Spec::Union, &merger, &[]);
    assert!(rt; none.is_ok());
}
