use crate::changed::changed;
use ss_codec::{
    CodecFault, Frame, FrameFault, Image, frames_are_read_again, get_frame,
    no_frame_begins_another, put_frame,
};
use std::alloc::Global;
use std::test::Fail;

/// The snapshot of vertex 2, a union, after 2 elements of an input at the bound 5 and all 3 of one that has ended. It
/// has an image, which a union's has not, so that all parts of a code are there.
fn frame(alloc: Global) -> Result<Frame, Fail> {
    Ok(Frame {
        v: 2,
        n: 5,
        out: 4,
        op: 2,
        width: 2,
        pos: [2, 3, 0, 0, 0, 0, 0, 0],
        bounds: [5, 1 << 63, 0, 0, 0, 0, 0, 0],
        image: Image::of(b"image".to_vec(alloc)?),
    })
}

/// The code of the frame, behind one other byte.
fn code_of(alloc: Global, f: &Frame) -> Result<Vec<u8>, Fail> {
    let mut out = vec![in alloc; 0xaa]?;
    let in_range = f.op >= 1 && f.op <= 6 && f.width >= 1 && f.width <= 8;
    let are_bounds = f.bounds.iter().all(|bound| *bound <= 1 << 63);
    if in_range && are_bounds && f.image.as_slice().len() < 1 << 32 {
        put_frame(f, &mut out)?;
    }
    Ok(out)
}

#[test]
fn a_frame_is_put_behind_what_stands_there_and_read_again(rt: HostRuntime) -> Result<(), Fail> {
    frames_are_read_again();
    no_frame_begins_another();
    let f = frame(rt.alloc())?;
    let code = code_of(rt.alloc(), &f)?;
    assert!(rt; code.len() == 97 && code[0] == 0xaa);
    let g = get_frame(rt.alloc(), &code[1..], 2, 5)?;
    assert!(rt; f.v == g.v && f.n == g.n && f.out == g.out && f.op == g.op && f.width == g.width);
    assert!(rt; f.pos == g.pos && f.bounds == g.bounds);
    assert!(rt; f.image.as_slice() == g.image.as_slice());
    Ok(())
}

#[test]
fn what_stands_above_the_width_is_not_put(rt: HostRuntime) -> Result<(), Fail> {
    let mut f = frame(rt.alloc())?;
    let put = code_of(rt.alloc(), &f)?;
    f.pos[2] = 7;
    f.bounds[7] = 7;
    assert!(rt; code_of(rt.alloc(), &f)? == put);
    Ok(())
}

#[test]
fn every_part_of_a_frame_from_the_front_is_short(rt: HostRuntime) -> Result<(), Fail> {
    let code = code_of(rt.alloc(), &frame(rt.alloc())?)?;
    assert!(rt; code.len() == 97);
    for len in 0..96 {
        let have = len as u64;
        // The width stands in front of the inputs, and the image's length behind them.
        let want = match len {
            0..23 => 23,
            23..59 => 59,
            _ => 96,
        };
        let short = FrameFault::Code(CodecFault::Short { have, want });
        let found = get_frame(rt.alloc(), &code[1..len + 1], 2, 5).err();
        assert!(rt; found == Some(short), "{len}: {found:?}");
    }
    Ok(())
}

#[test]
fn no_byte_of_a_frame_may_change(rt: HostRuntime) -> Result<(), Fail> {
    let code = code_of(rt.alloc(), &frame(rt.alloc())?)?;
    assert!(rt; code.len() == 97);
    for place in 0..96 {
        let bytes = changed(rt.alloc(), &code[1..], place, 0x40)?;
        assert!(rt; get_frame(rt.alloc(), &bytes, 2, 5).is_err(), "{place}");
    }
    Ok(())
}
