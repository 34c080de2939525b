//! Outputs that are left.
ghost use Rattle.std.specs.Prelude.{IfOk};
ghost use Rattle.ss_frames.specs.Snapshot.{IsSnapshot};
ghost use Rattle.ss_vertex.specs.Standing.{InstStands};

use crate::jobs::{WINDOW, WINDOW_FILE, WINDOW_LINES};
use crate::run::{Run, is_at};
use ss_codec::Frame;
use ss_plan::Plan;
use fixtures::made;
use ss_vertex::SnapFault;
use std::alloc::Global;
use std::process::Abort;
use std::test::Fail;

/// So many outputs are left, from this number on, and there is no snapshot. The first of them is given.
fn check_left(
    rt: &impl Abort,
    alloc: Global,
    plan: &Plan,
    run: &mut Run,
    next: u64,
    left: u64,
) -> Result<(), Fail>
    requires { InstStands plan.now run.old.inst }
    ensures { IfOk result (λ _. InstStands plan.now run.new.inst) }
{
    assert!(rt; is_at(&run.inst, 3, next, left));
    match run.snapshot(rt, alloc, plan) {
        Ok(_) => return Err(Fail::new("a snapshot with outputs left")),
        Err(fault) => assert!(rt; fault == SnapFault::Pending { left }),
    }
    run.give(rt, plan)
}

/// Three outputs are given one after the other.
fn check_all_left(rt: &impl Abort, alloc: Global, plan: &Plan, run: &mut Run) -> Result<(), Fail>
    requires { InstStands plan.now run.old.inst }
    ensures { IfOk result (λ _. InstStands plan.now run.new.inst) }
{
    run.take(rt, alloc, plan, 2)?;
    run.accept(rt, alloc, plan)??;
    check_left(rt, alloc, plan, run, 0, 3)?;
    check_left(rt, alloc, plan, run, 1, 2)?;
    check_left(rt, alloc, plan, run, 2, 1)
}

fn check_pending(rt: &impl Abort, alloc: Global, plan: &Plan) -> Result<(), Fail> {
    let mut run = Run::begin(rt, alloc, plan, 1)?;
    check_all_left(rt, alloc, plan, &mut run)?;
    let frame = run.snapshot(rt, alloc, plan)?;
    assert!(rt; frame.n == 3);
    assert!(rt; frame.out == 3);
    Ok(())
}

#[test]
fn a_snapshot_waits_until_no_output_is_left(rt: HostRuntime) -> Result<(), Fail> {
    let plan = made(rt.alloc(), WINDOW, &[WINDOW_FILE])?;
    check_pending(&rt, rt.alloc(), &plan)
}

/// The instance accepts an element at which three outputs are given. It goes on from the snapshot before when one of
/// them is done with: the others aren't left any more, and all are given again.
fn check_load(
    rt: &impl Abort,
    alloc: Global,
    plan: &Plan,
    run: &mut Run,
    f: &Frame,
) -> Result<(), Fail>
    requires stands { InstStands plan.now run.old.inst }
    requires snapshot { IsSnapshot plan.now f.now }
{
    run.accept(rt, alloc, plan)??;
    run.give(rt, plan)?;
    assert!(rt; is_at(&run.inst, 3, 1, 2));
    run.go_on(rt, plan, f)?;
    assert!(rt; is_at(&run.inst, 2, 0, 0));
    run.take(rt, alloc, plan, 2)
}

fn check_load_again(rt: &impl Abort, alloc: Global, plan: &Plan) -> Result<(), Fail> {
    let mut run = Run::begin(rt, alloc, plan, 1)?;
    run.take(rt, alloc, plan, 2)?;
    let frame = run.snapshot(rt, alloc, plan)?;
    check_load(rt, alloc, plan, &mut run, &frame)?;
    run.check_given(rt, alloc, WINDOW_LINES)
}

#[test]
fn nothing_is_left_after_a_load(rt: HostRuntime) -> Result<(), Fail> {
    let plan = made(rt.alloc(), WINDOW, &[WINDOW_FILE])?;
    check_load_again(&rt, rt.alloc(), &plan)
}
