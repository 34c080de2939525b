ghost use Rattle.std.specs.Prelude.{◌≡◌, ◌+◌, ◌*◌, ◌≤◌, ◌<◌, ◌++◌, ◌≢◌, ℕ, List, [], length, take, drop, slice_index};
ghost use Rattle.std.specs.Prelude.{nat_lt, if◌then◌else◌, IfOk, OnOk, IsErr, Ok};
ghost use Rattle.std.specs.Result.{result_err};
ghost use Rattle.std.specs.Int.{w32, w64};
ghost use Rattle.ss_codec.specs.declared.frame.Frame.{Frame};
ghost use Rattle.ss_codec.specs.Frame.{HasCode, IsFrame, frame_bytes};
ghost use Rattle.ss_codec.specs.FrameTests.{GivesFrame, bound_tests, entries_at, frame_at, frame_len, frame_read};
ghost use Rattle.ss_codec.specs.FrameTests.{frame_tests, head_tests};
ghost use Rattle.ss_codec.specs.Numbers.{number_at};
ghost use Rattle.ss_codec.specs.Tests.{first_fault};

use crate::Memory;
use crate::fault::{CodecFault, FrameFault};
use crate::frame::{Frame, Image};
use crate::frame_writer::FRAME_FORM;
use crate::numbers::{u32_at, u64_at};
use crate::record_reader::{check_name, check_seal};
use std::alloc::Global;

const TOP_TIME: u64 = 1 << 63;

/// The frame of vertex `v` with number `n` whose code the bytes are; else the first thing that is wrong with them.
pub fn get_frame(alloc: Global, bytes: &[u8], v: u32, n: u64) -> Result<Frame, FrameFault>
    // What is read is a frame for v and n, and its code is these bytes.
    ensures ok { IfOk result (λ f. IsFrame f × (f.v ≡ v) × (f.n ≡ n) × (bytes.now ≡ frame_bytes f)) }
    // Bytes that are the code of a frame for v and n are read as this frame.
    ensures read { (f : Frame) → IsFrame f → f.v ≡ v → f.n ≡ n → bytes.now ≡ frame_bytes f → GivesFrame result (Ok f) }
    // Bytes that lack the end of a code are refused.
    ensures short { (f : Frame) (rest : List ℕ) →
        HasCode f → frame_bytes f ≡ bytes.now ++ rest → rest ≢ [] → IsErr result }
    // Which fault it is: that of the first test which isn't passed.
    ensures exact { GivesFrame result (frame_read v n bytes.now) }
{
    read_frame(alloc, bytes, v, n)
}

#[tactic(auto, unfolding(crate::specs::FrameTests::frame_read))]
fn read_frame(alloc: Global, bytes: &[u8], v: u32, n: u64) -> Result<Frame, FrameFault>
    ensures { GivesFrame result (frame_read v n bytes.now) }
{
    match check_frame(bytes, v, n) {
        Ok(()) => match frame_of(alloc, bytes) {
            Ok(frame) => Ok(frame),
            Err(_) => Err(FrameFault::Memory),
        },
        Err(fault) => Err(FrameFault::Code(fault)),
    }
}

/// That the bytes are the code of a frame for this vertex and number.
fn check_frame(bytes: &[u8], v: u32, n: u64) -> Result<(), CodecFault>
    ensures fault { result_err result ≡ first_fault (frame_tests (slice_index bytes.now 22) v n bytes.now) }
    ensures len { OnOk result (length bytes.now ≡ frame_len (slice_index bytes.now 22) bytes.now) }
    ensures width { OnOk result (slice_index bytes.now 22 ≤ 8) }
{
    let len = code_len(bytes)?;
    check_seal(bytes, len)?;
    check_name(bytes, v, n)?;
    check_bounds(bytes)
}

/// The length of the code, which what stands before the image says.
fn code_len(bytes: &[u8]) -> Result<usize, CodecFault>
    ensures fault { result_err result ≡ first_fault (head_tests (slice_index bytes.now 22) bytes.now) }
    ensures len { IfOk result (λ len. len ≡ frame_len (slice_index bytes.now 22) bytes.now) }
    ensures width { OnOk result (slice_index bytes.now 22 ≤ 8) }
{
    if bytes.len() < 23 {
        return Err(CodecFault::Short {
            have: bytes.len() as u64,
            want: 23,
        });
    }
    if bytes[0] != FRAME_FORM {
        return Err(CodecFault::BadTag { at: 0 });
    }
    if bytes[1] < 1 || bytes[1] > 6 {
        return Err(CodecFault::BadTag { at: 1 });
    }
    let width = bytes[22] as usize;
    if width < 1 || width > 8 {
        return Err(CodecFault::BadValue { at: 22 });
    }
    let image = 27 + 16 * width;
    if bytes.len() < image {
        return Err(CodecFault::Short {
            have: bytes.len() as u64,
            want: image as u64,
        });
    }
    Ok(image + 32 + u32_at(bytes, 23 + 16 * width) as usize)
}

/// That the bounds of the inputs are at most 2^63.
fn check_bounds(bytes: &[u8]) -> Result<(), CodecFault>
    requires len { 27 + 16 * slice_index bytes.now 22 ≤ length bytes.now }
    requires head { 23 ≤ length bytes.now }
    ensures { result_err result ≡ first_fault (bound_tests (slice_index bytes.now 22) 31 bytes.now) }
{
    let width = bytes[22] as usize;
    for k in 0..width {
        let place = 31 + 16 * k;
        if u64_at(bytes, place) > TOP_TIME {
            return Err(CodecFault::BadValue { at: place as u64 });
        }
    }
    Ok(())
}

/// The frame that the bytes say.
#[tactic(auto, unfolding(crate::specs::FrameTests::frame_at))]
fn frame_of(alloc: Global, bytes: &[u8]) -> Result<Frame, Memory>
    requires len { length bytes.now ≡ frame_len (slice_index bytes.now 22) bytes.now }
    requires width { slice_index bytes.now 22 ≤ 8 }
    ensures { IfOk result (λ f. f ≡ frame_at (slice_index bytes.now 22) bytes.now) }
{
    let width = bytes[22] as usize;
    let image = 27 + 16 * width;
    let image_end = image + u32_at(bytes, 23 + 16 * width) as usize;
    let image = Vec::from_slice(alloc, &bytes[image..image_end])?;
    Ok(Frame {
        v: u32_at(bytes, 2),
        n: u64_at(bytes, 6),
        out: u64_at(bytes, 14),
        op: bytes[1],
        width: bytes[22] as u32,
        pos: entries_at(bytes, width, 23),
        bounds: entries_at(bytes, width, 31),
        image: Image::of(image),
    })
}

/// The numbers that every sixteenth byte from this place on begins, for so many inputs, and zeros.
fn entries_at(bytes: &[u8], width: usize, place: usize) -> [u64; 8]
    requires width { width ≤ 8 }
    requires len { place + 16 * width ≤ length bytes.now + 8 }
    requires place { place ≤ 31 }
    ensures { result ≡ entries_at width place bytes.now }
{
    let entry = |k: usize| entry_at(bytes, width, place, k);
    [
        entry(0),
        entry(1),
        entry(2),
        entry(3),
        entry(4),
        entry(5),
        entry(6),
        entry(7),
    ]
}

/// The number for this input, or 0 where there are fewer.
fn entry_at(bytes: &[u8], width: usize, place: usize, k: usize) -> u64
    requires width { width ≤ 8 }
    requires len { place + 16 * width ≤ length bytes.now + 8 }
    requires place { place ≤ 31 }
    requires k { k < 8 }
    ensures { result ≡ (if nat_lt k width then number_at w64 (place + 16 * k) bytes.now else 0) }
{
    if k < width {
        u64_at(bytes, place + 16 * k)
    } else {
        0
    }
}
