ghost use Rattle.std.specs.Prelude.{◌≡◌, ◌++◌, ◌<◌, ◌≤◌, ◌^◌, length, OnOk, OnErr};
ghost use Rattle.ss_codec.specs.Frame.{HasCode, frame_bytes, frame_front, frame_head, inputs_bytes};
ghost use Rattle.ss_codec.specs.Joined.{Extends};

use crate::Memory;
use crate::frame::Frame;
use crate::numbers::{bytes_of_u32, bytes_of_u64};
use crate::put::{put, put_digest};

/// The first byte of a frame's code.
pub(crate) const FRAME_FORM: u8 = 0x11;

/// Appends the code of the frame, or nothing where memory runs out. What stands in the frame's `pos` and `bounds` at
/// and above its width isn't in the code.
#[tactic(auto, unfolding(crate::specs::Frame::frame_bytes))]
pub fn put_frame(f: &Frame, out: &mut Vec<u8>) -> Result<(), Memory>
    requires code { HasCode f.now }
    ensures frame { OnOk result (out.new.items ≡ out.old.items ++ frame_bytes f.now) }
    ensures kept { OnErr result (out.new.items ≡ out.old.items) }
{
    let start = out.len();
    match put_code(f, out) {
        Ok(()) => Ok(()),
        Err(memory) => {
            out.truncate(start);
            Err(memory)
        }
    }
}

/// Appends the code, or a part of it where memory runs out.
#[tactic(auto, unfolding(crate::specs::Frame::frame_bytes))]
fn put_code(f: &Frame, out: &mut Vec<u8>) -> Result<(), Memory>
    requires code { HasCode f.now }
    ensures frame { OnOk result (out.new.items ≡ out.old.items ++ frame_bytes f.now) }
    ensures part { OnErr result (Extends out.old.items out.new.items) }
{
    let start = out.len();
    put_front(f, out)?;
    put_digest(out, start)
}

/// Appends the code without its digest, or a part of it where memory runs out.
fn put_front(f: &Frame, out: &mut Vec<u8>) -> Result<(), Memory>
    requires code { HasCode f.now }
    ensures front { OnOk result (out.new.items ≡ out.old.items ++ frame_front f.now) }
    ensures part { OnErr result (Extends out.old.items out.new.items) }
{
    put_head(f, out)?;
    put_inputs(f.width, &f.pos, &f.bounds, out)?;
    let image = f.image.as_slice();
    put(out, &[&bytes_of_u32(image.len() as u32), image])
}

/// Appends what stands before the inputs, or a part of it where memory runs out.
fn put_head(f: &Frame, out: &mut Vec<u8>) -> Result<(), Memory>
    requires width { f.now.width ≤ 8 }
    ensures head { OnOk result (out.new.items ≡ out.old.items ++ frame_head f.now) }
    ensures part { OnErr result (Extends out.old.items out.new.items) }
{
    let n = bytes_of_u64(f.n);
    let given = bytes_of_u64(f.out);
    put(
        out,
        &[
            &[FRAME_FORM, f.op],
            &bytes_of_u32(f.v),
            &n,
            &given,
            &[f.width as u8],
        ],
    )
}

/// Appends the position and the bound of each of so many inputs, or a part of them where memory runs out.
fn put_inputs(
    width: u32,
    pos: &[u64; 8],
    bounds: &[u64; 8],
    out: &mut Vec<u8>,
) -> Result<(), Memory>
    requires { width ≤ 8 }
    ensures inputs { OnOk result (out.new.items ≡ out.old.items ++ inputs_bytes width pos.now bounds.now) }
    ensures part { OnErr result (Extends out.old.items out.new.items) }
{
    for k in 0..width {
        let place = k as usize;
        put(
            out,
            &[&bytes_of_u64(pos[place]), &bytes_of_u64(bounds[place])],
        )?;
    }
    Ok(())
}
