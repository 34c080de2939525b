//! Images that are none of the vertex's operator.
ghost use Rattle.std.specs.Prelude.{◌≡◌, ◌≤◌, ℕ, List, IfOk, All, take};
ghost use Rattle.ss_elem.specs.Validity.{top};
ghost use Rattle.ss_frames.specs.Snapshot.{IsSnapshot};
ghost use Rattle.ss_vertex.specs.Calls.{FitsVertex};
ghost use Rattle.ss_vertex.specs.Standing.{InstStands};

use crate::jobs::{JOIN, SELECT, UNION, WINDOW, WINDOW_FILE};
use crate::run::Run;
use crate::snapshots::bytes_now;
use ss_codec::{Frame, Image};
use ss_plan::Plan;
use fixtures::made;
use ss_vertex::{Inst, LoadFault, snapshots_fit};
use std::alloc::Global;
use std::process::Abort;
use std::test::Fail;

/// A job with its sources' files, an operator of it, an image in hexadecimal, and the place of its first fault.
type Case<'a> = (&'a str, &'a [&'a str], u32, &'a str, u64);

const ROW: &str = "event,1,2,k,5,1\n";

/// The image of a window that holds nothing.
const EMPTY_WINDOW: &str = "00000000";

/// The image of a join that holds nothing.
const EMPTY_JOIN: &str = "0000000000000000";

/// An entry whose end is 15, no multiple of the hop.
const ODD_END: &str = "\
    00000001\
    000000000000000f6b000000000000000000000000000000000000000000000000000000000000030000000000000001";

/// An entry whose end is 20, and behind it one whose end is 10.
const FALLING_ENDS: &str = "\
    00000002\
    00000000000000146b000000000000000000000000000000000000000000000000000000000000030000000000000001\
    000000000000000a6b000000000000000000000000000000000000000000000000000000000000030000000000000001";

/// A left row that ends where it starts.
const EMPTY_ROW: &str = "\
    0000000100000000\
    000000000000000500000000000000056b00000000000000000000000000000000000000000000010000000000000000";

/// The snapshot with another image.
fn with_image(f: &Frame, image: Vec<u8>) -> Frame
    ensures { result ≡ record f.now { image = image.items } }
{
    Frame {
        v: f.v,
        n: f.n,
        out: f.out,
        op: f.op,
        width: f.width,
        pos: f.pos,
        bounds: f.bounds,
        image: Image::of(image),
    }
}

/// A snapshot of the instance's vertex is such as a load asks, with any image.
fn check_fits(rt: &impl Abort, plan: &Plan, inst: &Inst, f: &Frame, other: &Frame)
    requires snapshot { IsSnapshot plan.now f.now }
    requires other { (image : List ℕ) × (other.now ≡ record f.now { image = image }) }
    ensures vertex { FitsVertex plan.now inst.now.v other.now }
    ensures bounds { All (λ b. b ≤ top) (take other.now.width other.now.bounds) }
{
    plan.max_elements();
    snapshots_fit();
    assert!(rt; f.v == inst.v());
}

/// Why the instance doesn't go on from a snapshot of its vertex with another image.
fn fault_of(
    rt: &impl Abort,
    plan: &Plan,
    run: &mut Run,
    f: &Frame,
    image: Vec<u8>,
) -> Result<LoadFault, Fail>
    requires stands { InstStands plan.now run.old.inst }
    requires snapshot { IsSnapshot plan.now f.now }
    ensures { IfOk result (λ _. InstStands plan.now run.new.inst) }
{
    let other = with_image(f, image);
    check_fits(rt, plan, &run.inst, f, &other);
    match run.inst.load(plan, &other) {
        Ok(()) => Err(Fail::new("another image is loaded")),
        Err(fault) => Ok(fault),
    }
}

/// An instance that has accepted an element doesn't go on from its snapshot with the image, and is as before.
fn check_run(
    rt: &impl Abort,
    alloc: Global,
    plan: &Plan,
    run: &mut Run,
    image: &str,
    at: u64,
) -> Result<(), Fail>
    requires { InstStands plan.now run.old.inst }
{
    run.take(rt, alloc, plan, 1)?;
    let before = bytes_now(rt, alloc, plan, run)?;
    let fault = damaged(rt, alloc, plan, run, image)?;
    assert!(rt; fault == LoadFault::Damaged { at });
    let after = bytes_now(rt, alloc, plan, run)?;
    assert!(rt; before == after);
    Ok(())
}

/// Why the instance doesn't go on from its own snapshot with this image, in hexadecimal.
fn damaged(
    rt: &impl Abort,
    alloc: Global,
    plan: &Plan,
    run: &mut Run,
    image: &str,
) -> Result<LoadFault, Fail>
    requires { InstStands plan.now run.old.inst }
    ensures { IfOk result (λ _. InstStands plan.now run.new.inst) }
{
    let frame = run.snapshot(rt, alloc, plan)?;
    let image = hex::decode(alloc, image)?;
    fault_of(rt, plan, run, &frame, image)
}

fn check_plan(
    rt: &impl Abort,
    alloc: Global,
    plan: &Plan,
    v: u32,
    image: &str,
    at: u64,
) -> Result<(), Fail> {
    let mut run = Run::begin(rt, alloc, plan, v)?;
    check_run(rt, alloc, plan, &mut run, image, at)
}

fn check(rt: &impl Abort, alloc: Global, case: Case<'_>) -> Result<(), Fail> {
    let (job, files, v, image, at) = case;
    let plan = made(alloc, job, files)?;
    check_plan(rt, alloc, &plan, v, image, at)
}

#[test]
fn an_image_of_another_operator_is_damaged(rt: HostRuntime) -> Result<(), Fail> {
    let cases: [Case<'_>; 9] = [
        (SELECT, &[ROW], 1, EMPTY_WINDOW, 0),
        (UNION, &[ROW, ROW], 2, EMPTY_JOIN, 0),
        (WINDOW, &[WINDOW_FILE], 1, "", 0),
        (WINDOW, &[WINDOW_FILE], 1, EMPTY_JOIN, 0),
        (WINDOW, &[WINDOW_FILE], 1, ODD_END, 4),
        (WINDOW, &[WINDOW_FILE], 1, FALLING_ENDS, 52),
        (JOIN, &[ROW, ROW], 2, "", 0),
        (JOIN, &[ROW, ROW], 2, EMPTY_WINDOW, 0),
        (JOIN, &[ROW, ROW], 2, EMPTY_ROW, 8),
    ];
    for case in cases {
        check(&rt, rt.alloc(), case)?;
    }
    Ok(())
}
