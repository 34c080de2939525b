use ss_elem::Out;
use ss_events::{Late, read_events};
use ss_join::{ImageFault, Join};
use std::alloc::Global;
use std::test::Fail;

// The image of a join that remembers one left row.
const ONE_ROW: [u8; 56] = [
    0, 0, 0, 1, // one left row
    0, 0, 0, 0, // no right row
    0, 0, 0, 0, 0, 0, 0, 1, // its start
    0, 0, 0, 0, 0, 0, 0, 10, // its end
    0x6b, 0, 0, 0, 0, 0, 0, 0, 0, 0, 0, 0, 0, 0, 0, 0, // its key
    0, 0, 0, 0, 0, 0, 0, 1, // its first value
    0, 0, 0, 0, 0, 0, 0, 0, // its second value
];

#[test]
fn a_join_is_put_as_its_rows(rt: HostRuntime) -> Result<(), Fail> {
    let list = read_events(rt.alloc(), b"event,1,10,k,1,0\n", Late::Refuse)?;
    let mut join = Join::new(rt.alloc());
    let mut out = Out::new(rt.alloc());
    assert!(rt; list.len() == 2);
    join.step(0, &list[0], [0; 8], &mut out)?;
    assert!(rt; join.held() == 1);
    let mut image = Vec::new(rt.alloc());
    join.image(&mut image)?;
    assert!(rt; image.as_slice() == ONE_ROW.as_slice());
    Ok(())
}

/// Why the bytes are no image of a join whose left input has the bound 0, and the right one this.
fn fault_of(alloc: Global, right: u64, bytes: &[u8]) -> Option<ImageFault> {
    Join::of_image(alloc, [0, right, 0, 0, 0, 0, 0, 0], bytes).err()
}

#[test]
fn bytes_of_another_length_are_no_image_of_a_join(rt: HostRuntime) -> Result<(), Fail> {
    let length = Some(ImageFault::At { at: 0 });
    assert!(rt; fault_of(rt.alloc(), 9, &ONE_ROW).is_none());
    assert!(rt; fault_of(rt.alloc(), 0, &[0; 8]).is_none());
    for len in 0..56 {
        assert!(rt; fault_of(rt.alloc(), 9, &ONE_ROW[..len]) == length, "{len}");
    }
    assert!(rt; fault_of(rt.alloc(), 9, &[0; 9]) == length);
    let ended = fault_of(rt.alloc(), 10, &ONE_ROW);
    assert!(rt; ended == Some(ImageFault::At { at: 8 }));
    Ok(())
}
