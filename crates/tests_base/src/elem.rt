use ss_elem::{Bound, Element, Key, Out, key_order_is_text_order};
use std::cmp::Ordering;
use std::test::Fail;

#[test]
fn keys_compare_as_their_texts(rt: HostRuntime) -> Result<(), Fail> {
    key_order_is_text_order();
    let rising: [&[u8]; 7] = [b"!", b"A", b"a", b"aa", b"ab", b"aba", b"b"];
    let mut last = Key::of(b" ").ok();
    for bytes in rising {
        let key = Key::of(bytes).ok();
        assert!(rt; last < key, "{bytes:?}");
        last = key;
    }
    let (short, long) = (Key::of(b"ab").ok(), Key::of(b"aba").ok());
    assert_eq!(rt; short.cmp(&long), Ordering::Less);
    assert_eq!(rt; long.cmp(&short), Ordering::Greater);
    assert_eq!(rt; long.cmp(&long), Ordering::Equal);
    Ok(())
}

#[test]
fn elements_go_into_reserved_places(rt: HostRuntime) -> Result<(), Fail> {
    let mut out = Out::new(rt.alloc());
    out.reserve(2)?;
    out.push(Element::Cti(5));
    out.push(Element::End);
    assert_eq!(rt; out.as_slice(), [Element::Cti(5), Element::End].as_slice());
    Ok(())
}

#[test]
fn bounds_begin_at_zero_and_end_at_the_top(rt: HostRuntime) {
    let (zero, top) = Bound::zero_and_top();
    assert_eq!(rt; zero.get(), 0);
    assert_eq!(rt; top.get(), 9223372036854775808);
}
