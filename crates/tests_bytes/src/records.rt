use crate::changed::changed;
use ss_codec::{
    CodecFault, get_element, no_record_begins_another, put_element, records_are_read_again,
};
use ss_elem::{Bound, Element, valid_next};
use ss_events::{Late, read_events};
use std::alloc::Global;
use std::test::Fail;

/// A row of two values, one of four, a cti, and the end: the place of each in its stream is its number.
const STREAM: &[u8] = b"event,5,9,k,3,0\nevent,5,9,k,3,0,0,-1\ncti,10\nend\n";

/// How many bytes their records have.
const LENGTHS: [u64; 4] = [94, 110, 54, 46];

/// The records of the elements in the stream of vertex 2.
fn records(alloc: Global) -> Result<Vec<Vec<u8>>, Fail> {
    let mut all = Vec::new(alloc);
    for (n, x) in read_events(alloc, STREAM, Late::Refuse)?.iter().enumerate() {
        let mut record = Vec::new(alloc);
        valid_next(Bound::ZERO, x)?;
        put_element(2, n as u64, x, &mut record)?;
        all.push(record)?;
    }
    Ok(all)
}

#[test]
fn a_record_is_put_behind_what_stands_there(rt: HostRuntime) -> Result<(), Fail> {
    records_are_read_again();
    no_record_begins_another();
    let list = read_events(rt.alloc(), STREAM, Late::Refuse)?;
    assert_eq!(rt; list.len(), 4);
    let mut out = vec![in rt.alloc(); 0xaa]?;
    valid_next(Bound::ZERO, &list[0])?;
    put_element(2, 7, &list[0], &mut out)?;
    assert!(rt; out.len() == 95 && out[0] == 0xaa);
    assert_eq!(rt; get_element(&out[1..], 2, 7), Ok(list[0]));
    Ok(())
}

#[test]
fn every_part_of_a_record_from_the_front_is_short(rt: HostRuntime) -> Result<(), Fail> {
    for (n, (record, whole)) in records(rt.alloc())?.iter().zip(LENGTHS).enumerate() {
        assert_eq!(rt; record.len() as u64, whole);
        for len in 0..record.len() {
            let (have, want) = (len as u64, if len < 2 { 2 } else { whole });
            let fault = Err(CodecFault::Short { have, want });
            assert!(rt;
                get_element(&record[..len], 2, n as u64) == fault,
                "{n} {len}"
            );
        }
    }
    Ok(())
}

/// Whether the fault is that of a change at a place: of the form it is told there, of the kind there or as another
/// length, and of all bytes behind as another digest.
fn is_told(fault: &Result<Element, CodecFault>, place: usize) -> bool {
    match fault {
        Ok(_) => false,
        Err(CodecFault::BadTag { at }) => *at == place as u64 && place <= 1,
        Err(CodecFault::Short { .. } | CodecFault::Extra { .. }) => place == 1,
        Err(CodecFault::BadDigest { .. }) => place >= 2,
        Err(CodecFault::BadValue { .. }) => false,
    }
}

#[test]
fn no_byte_of_a_record_may_change(rt: HostRuntime) -> Result<(), Fail> {
    for (n, record) in records(rt.alloc())?.iter().enumerate() {
        for place in 0..record.len() {
            for bits in [0x01, 0x80] {
                let bytes = changed(rt.alloc(), record, place, bits)?;
                let fault = get_element(&bytes, 2, n as u64);
                assert!(rt; is_told(&fault, place), "{n} {place}");
            }
        }
    }
    Ok(())
}
