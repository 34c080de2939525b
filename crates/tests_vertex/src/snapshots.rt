//! The bytes of snapshots.
ghost use Rattle.std.specs.Prelude.{◌≡◌, IfOk};
ghost use Rattle.ss_codec.specs.Frame.{IsFrame, frame_bytes};
ghost use Rattle.ss_frames.specs.Snapshot.{IsSnapshot};
ghost use Rattle.ss_vertex.specs.Standing.{InstStands};

use crate::jobs::{WINDOW, WINDOW_FILE, WINDOW_LINES};
use crate::run::Run;
use ss_codec::{Frame, get_frame, put_frame};
use ss_frames::frames_have_codes;
use ss_plan::Plan;
use fixtures::made;
use std::alloc::Global;
use std::process::Abort;
use std::test::Fail;

/// The snapshot of the window of vertex 1 after a row `[5, 9)` of key `k` with the value 3: its number and what it had
/// given, the position and the bound of its input, two entries, and the digest of Python's hashlib.
const AFTER_THE_ROW: &str = "\
    1103000000010000000000000001000000000000000001\
    00000000000000010000000000000000\
    0000006400000002\
    000000000000000a6b000000000000000000000000000000000000000000000000000000000000030000000000000001\
    00000000000000146b000000000000000000000000000000000000000000000000000000000000030000000000000001\
    5a21a3471404725c29f51563183c6fb2ff5aa7563a27ac272bb36f9f884ed326";

/// A snapshot has a code.
fn check_code(plan: &Plan, f: &Frame)
    requires { IsSnapshot plan.now f.now }
    ensures { IsFrame f.now }
{
    plan.max_elements();
    frames_have_codes();
}

/// The bytes of a snapshot.
pub(crate) fn bytes_of(alloc: Global, plan: &Plan, f: &Frame) -> Result<Vec<u8>, Fail>
    requires { IsSnapshot plan.now f.now }
    ensures { IfOk result (λ bytes. bytes.items ≡ frame_bytes f.now) }
{
    check_code(plan, f);
    let mut bytes = Vec::new(alloc);
    put_frame(f, &mut bytes)?;
    Ok(bytes)
}

/// The snapshot as its bytes are read.
pub(crate) fn read_again(alloc: Global, plan: &Plan, f: &Frame) -> Result<Frame, Fail>
    requires { IsSnapshot plan.now f.now }
    ensures { IfOk result (IsSnapshot plan.now) }
{
    check_code(plan, f);
    let bytes = bytes_of(alloc, plan, f)?;
    match get_frame(alloc, bytes.as_slice(), f.v, f.n) {
        Ok(frame) => Ok(frame),
        Err(_) => Err(Fail::new("a snapshot is not read again")),
    }
}

/// The bytes of an instance's snapshot.
pub(crate) fn bytes_now(
    rt: &impl Abort,
    alloc: Global,
    plan: &Plan,
    run: &Run,
) -> Result<Vec<u8>, Fail>
    requires { InstStands plan.now run.now.inst }
{
    let frame = run.snapshot(rt, alloc, plan)?;
    bytes_of(alloc, plan, &frame)
}

/// The instance crashes, and goes on from its own snapshot as it is read from its bytes.
pub(crate) fn stop(rt: &impl Abort, alloc: Global, plan: &Plan, run: &mut Run) -> Result<(), Fail>
    requires { InstStands plan.now run.old.inst }
    ensures { IfOk result (λ _. InstStands plan.now run.new.inst) }
{
    let frame = run.snapshot(rt, alloc, plan)?;
    let read = read_again(alloc, plan, &frame)?;
    run.restart(rt, plan, &read)
}

/// The snapshot of a new instance of the window after its first element.
fn after_the_first(rt: &impl Abort, alloc: Global, plan: &Plan) -> Result<Frame, Fail>
    ensures { IfOk result (IsSnapshot plan.now) }
{
    let mut run = Run::begin(rt, alloc, plan, 1)?;
    run.take(rt, alloc, plan, 1)?;
    Ok(run.snapshot(rt, alloc, plan)?)
}

/// A new instance that goes on from the snapshot gives all that the window gives.
fn check_rest(rt: &impl Abort, alloc: Global, plan: &Plan, f: &Frame) -> Result<(), Fail>
    requires { IsSnapshot plan.now f.now }
{
    let mut run = Run::begin(rt, alloc, plan, 1)?;
    run.go_on(rt, plan, f)?;
    run.take(rt, alloc, plan, 3)?;
    run.check_given(rt, alloc, WINDOW_LINES)
}

/// The snapshot has these bytes, in hexadecimal.
fn check_bytes(
    rt: &impl Abort,
    alloc: Global,
    plan: &Plan,
    f: &Frame,
    text: &str,
) -> Result<(), Fail>
    requires { IsSnapshot plan.now f.now }
{
    let bytes = bytes_of(alloc, plan, f)?;
    let code = hex::decode(alloc, text)?;
    assert_eq!(rt; code.len(), 175);
    assert!(rt; bytes == code);
    Ok(())
}

/// A new instance has the snapshot of the row, and one more goes on from it as it is read from its bytes.
fn check_replica(rt: &impl Abort, alloc: Global, plan: &Plan) -> Result<(), Fail> {
    let frame = after_the_first(rt, alloc, plan)?;
    assert!(rt; frame.n == 1);
    assert!(rt; frame.out == 0);
    check_bytes(rt, alloc, plan, &frame, AFTER_THE_ROW)?;
    let read = read_again(alloc, plan, &frame)?;
    check_rest(rt, alloc, plan, &read)
}

#[test]
fn replicas_have_one_snapshot_from_which_others_go_on(rt: HostRuntime) -> Result<(), Fail> {
    let plan = made(rt.alloc(), WINDOW, &[WINDOW_FILE])?;
    check_replica(&rt, rt.alloc(), &plan)?;
    check_replica(&rt, rt.alloc(), &plan)
}
