use ss_elem::Element;
use ss_tail::{Batch, Memory, Shown, Tail, Wrote};
use std::alloc::Global;
use std::test::Fail;

/// Element `n` of the stream of these tests.
fn element(n: u64) -> Element {
    Element::Cti(n.saturating_add(1))
}

fn write(tail: &mut Tail, n: u64) -> Result<Option<Wrote>, Memory> {
    if n < 1 << 62 {
        Ok(Some(tail.write(n, &element(n))?))
    } else {
        Ok(None)
    }
}

/// A tail with the first elements of the stream.
fn tail_of(alloc: Global, count: u64) -> Result<Tail, Memory> {
    let mut tail = Tail::new(alloc);
    for n in 0..count {
        write(&mut tail, n)?;
    }
    Ok(tail)
}

fn numbers(tail: &Tail) -> (u64, u64, u64, bool, u64) {
    (
        tail.from(),
        tail.end(),
        tail.seen(),
        tail.torn(),
        tail.stored(),
    )
}

#[test]
fn a_write_is_answered_by_its_place(rt: HostRuntime) -> Result<(), Fail> {
    let mut tail = tail_of(rt.alloc(), 4)?;
    assert!(rt; numbers(&tail) == (0, 4, 0, false, 4));
    tail.trim(2);
    let cases = [
        (0, Wrote::Old),
        (1, Wrote::Old),
        (2, Wrote::Known),
        (3, Wrote::Known),
        (5, Wrote::Gap { end: 4 }),
        (6, Wrote::Gap { end: 4 }),
        (4, Wrote::Stored),
        (4, Wrote::Known),
    ];
    for (n, answer) in cases {
        assert!(rt; write(&mut tail, n)? == Some(answer), "{n}");
    }
    assert!(rt; numbers(&tail) == (2, 5, 0, false, 5));
    tail.restart(9);
    assert!(rt; write(&mut tail, 8)? == Some(Wrote::Old));
    assert!(rt; write(&mut tail, 10)? == Some(Wrote::Gap { end: 9 }));
    assert!(rt; write(&mut tail, 9)? == Some(Wrote::Stored));
    assert!(rt; numbers(&tail) == (9, 10, 9, true, 6));
    Ok(())
}

#[test]
fn a_read_is_answered_by_its_place(rt: HostRuntime) -> Result<(), Fail> {
    let mut tail = tail_of(rt.alloc(), 4)?;
    assert!(rt; tail.read(0) == Shown::Item(element(0)));
    assert!(rt; tail.read(3) == Shown::Item(element(3)));
    assert!(rt; tail.read(4) == Shown::NotYet { end: 4 });
    assert!(rt; tail.read(u64::MAX) == Shown::NotYet { end: 4 });
    tail.trim(3);
    assert!(rt; tail.read(2) == Shown::Below { from: 3 });
    assert!(rt; tail.read(3) == Shown::Item(element(3)));
    tail.note(2);
    assert_eq!(rt; tail.lose(), 1);
    assert!(rt; numbers(&tail) == (2, 2, 2, true, 4));
    assert!(rt; tail.read(1) == Shown::Below { from: 2 });
    assert!(rt; tail.read(2) == Shown::Torn { end: 2 });
    assert!(rt; write(&mut tail, 2)? == Some(Wrote::Stored));
    assert!(rt; tail.read(2) == Shown::Item(element(2)));
    assert!(rt; tail.read(3) == Shown::Torn { end: 3 });
    assert_eq!(rt; tail.lose(), 1);
    assert_eq!(rt; tail.lose(), 0);
    Ok(())
}

#[test]
fn a_batch_begins_where_nothing_is_told_to_be_stored(rt: HostRuntime) -> Result<(), Fail> {
    let mut tail = tail_of(rt.alloc(), 5)?;
    // What is told, what is asked for, where the batch begins and how many elements it has.
    let cases = [
        (0, 0, 0, 0),
        (0, 64, 0, 5),
        (1, 3, 1, 3),
        (4, 64, 4, 1),
        (3, 64, 4, 1),
        (5, 64, 5, 0),
        (7, 64, 7, 0),
    ];
    for (dur, most, from, count) in cases {
        tail.note(dur);
        let batch = tail.batch(most);
        assert!(rt;
            batch.from == from && batch.first.len() == count,
            "{dur} {most}"
        );
        assert!(rt; has_elements(&batch), "{dur} {most}");
    }
    let mut trimmed = tail_of(rt.alloc(), 5)?;
    trimmed.trim(3);
    let batch = trimmed.batch(64);
    assert!(rt; batch.from == 3 && batch.first == [element(3), element(4)].as_slice());
    assert!(rt; batch.rest.is_empty());
    Ok(())
}

/// Whether the elements of a batch are those that have its numbers.
fn has_elements(batch: &Batch<'_>) -> bool {
    let mut n = batch.from;
    for x in batch.first {
        if *x != element(n) {
            return false;
        }
        n = n.saturating_add(1);
    }
    for x in batch.rest {
        if *x != element(n) {
            return false;
        }
        n = n.saturating_add(1);
    }
    true
}

#[test]
fn pages_come_with_their_first_element_and_go_with_their_last(rt: HostRuntime) -> Result<(), Fail> {
    let mut tail = tail_of(rt.alloc(), 130)?;
    assert_eq!(rt; tail.pages(), 3);
    // In the middle of a page, up to its last element, a whole page, and all.
    let cases = [
        (1, 3),
        (63, 3),
        (64, 2),
        (100, 2),
        (128, 1),
        (129, 1),
        (130, 0),
    ];
    for (m, pages) in cases {
        tail.trim(m);
        assert!(rt; tail.pages() == pages && tail.from() == m, "{m}");
        assert!(rt; m == 130 || tail.read(m) == Shown::Item(element(m)), "{m}");
    }
    assert!(rt; write(&mut tail, 130)? == Some(Wrote::Stored));
    assert_eq!(rt; tail.pages(), 1);
    assert_eq!(rt; tail.lose(), 1);
    assert_eq!(rt; tail.pages(), 0);
    tail.restart(191);
    assert!(rt; write(&mut tail, 191)? == Some(Wrote::Stored));
    assert!(rt; write(&mut tail, 192)? == Some(Wrote::Stored));
    assert_eq!(rt; tail.pages(), 2);
    assert!(rt; tail.read(191) == Shown::Item(element(191)));
    assert!(rt; tail.read(192) == Shown::Item(element(192)));
    Ok(())
}

#[test]
fn a_batch_goes_over_the_end_of_a_page(rt: HostRuntime) -> Result<(), Fail> {
    let mut tail = tail_of(rt.alloc(), 130)?;
    // What is told, what is asked for, and how many elements are in the first page and in the next.
    let cases = [
        (0, 64, 64, 0),
        (32, 64, 32, 32),
        (32, 10, 10, 0),
        (63, 64, 1, 63),
        (64, 64, 64, 0),
        (127, 64, 1, 2),
        (128, 64, 2, 0),
        (130, 64, 0, 0),
    ];
    for (dur, most, first, rest) in cases {
        tail.note(dur);
        let batch = tail.batch(most);
        assert!(rt; batch.from == dur, "{dur} {most}");
        assert!(rt;
            batch.first.len() == first && batch.rest.len() == rest,
            "{dur} {most}"
        );
        assert!(rt; has_elements(&batch), "{dur} {most}");
    }
    Ok(())
}

#[test]
fn a_refused_page_leaves_the_tail_as_it_was(rt: HostRuntime) -> Result<(), Fail> {
    let mut tail = Tail::new(rt.alloc());
    // Where an allocation is made to fail, the write that needed it is done once more.
    for n in 0..200 {
        let before = (numbers(&tail), tail.pages());
        let refused = write(&mut tail, n).is_err();
        if refused {
            assert!(rt; (numbers(&tail), tail.pages()) == before, "{n}");
            assert!(rt; write(&mut tail, n)? == Some(Wrote::Stored), "{n}");
        }
        assert!(rt; tail.end() == n.saturating_add(1), "{n}");
        assert!(rt; tail.read(n) == Shown::Item(element(n)), "{n}");
    }
    Ok(())
}

#[test]
fn a_tail_trimmed_a_little_at_a_time_keeps_the_rest(rt: HostRuntime) -> Result<(), Fail> {
    let mut tail = tail_of(rt.alloc(), 1000)?;
    for m in 0..999 {
        tail.trim(m);
        tail.trim(m / 2);
        assert!(rt;
            tail.from() == m && tail.read(m) == Shown::Item(element(m)),
            "{m}"
        );
        assert!(rt; tail.read(999) == Shown::Item(element(999)), "{m}");
    }
    tail.trim(2000);
    assert!(rt; numbers(&tail) == (1000, 1000, 0, false, 1000));
    assert!(rt; write(&mut tail, 1000)? == Some(Wrote::Stored));
    assert!(rt; tail.read(1000) == Shown::Item(element(1000)));
    Ok(())
}
