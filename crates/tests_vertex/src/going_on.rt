//! Instances that are crashed, and go on from their snapshots after every element, beside others that never stop.
ghost use Rattle.std.specs.Prelude.{IfOk};
ghost use Rattle.ss_vertex.specs.Standing.{InstStands};

use crate::jobs::{JOIN, SELECT, UNION, WINDOW, WINDOW_FILE, WINDOW_LINES};
use crate::run::{Run, wanted_by};
use crate::snapshots::{bytes_now, stop};
use ss_plan::Plan;
use fixtures::made;
use std::alloc::Global;
use std::process::Abort;
use std::test::Fail;

const THREE: &str = "
job = { max_elements = 7 }
vertex = [
    { name = 'a', op = 'source', file = 'a.csv' },
    { name = 'b', op = 'source', file = 'b.csv' },
    { name = 'u', op = 'union', inputs = ['a', 'b', 'a'] },
    { name = 'out', op = 'sink', inputs = ['u'], file = 'out.csv' },
]
";

const SELECT_FILE: &str = "event,1,2,k,5,1\nevent,1,2,q,5,1\ncti,4\n";

const SELECT_LINES: &str = "event,1,2,k,14,0\ncti,4\nend\n";

const LEFT_OF_UNION: &str = "event,1,2,p,1,0\ncti,5\n";

const RIGHT_OF_UNION: &str = "event,1,2,q,2,0\ncti,5\n";

const UNION_LINES: &str = "event,1,2,p,1,0\nevent,1,2,q,2,0\ncti,5\nend\n";

const FIRST_OF_THREE: &str = "event,1,2,p,1,0\ncti,5\nevent,5,6,q,2,0\n";

const SECOND_OF_THREE: &str = "event,3,4,r,3,0\n";

const THREE_LINES: &str = "\
    event,1,2,p,1,0\nevent,3,4,r,3,0\nevent,1,2,p,1,0\ncti,5\nevent,5,6,q,2,0\nevent,5,6,q,2,0\nend\n";

const LEFT_OF_JOIN: &str = "event,1,10,k,1,0\ncti,20\n";

const RIGHT_OF_JOIN: &str = "event,5,7,k,2,0\ncti,6\nevent,9,12,k,3,0\n";

const JOIN_LINES: &str = "event,5,7,k,1,2\ncti,6\nevent,9,10,k,1,3\ncti,20\nend\n";

/// A job with its sources' files, an operator of it, how many bytes a snapshot of the operator has beside the entries,
/// how many elements arrive at it, and what it gives.
type Case<'a> = (&'a str, &'a [&'a str], u32, u64, u64, &'a str);

/// Both instances have one snapshot.
fn check_same(
    rt: &impl Abort,
    alloc: Global,
    plan: &Plan,
    bare: u64,
    steady: &Run,
    stopped: &Run,
) -> Result<(), Fail>
    requires steady { InstStands plan.now steady.now.inst }
    requires stopped { InstStands plan.now stopped.now.inst }
{
    let bytes = bytes_now(rt, alloc, plan, steady)?;
    let others = bytes_now(rt, alloc, plan, stopped)?;
    assert!(rt; bytes == others);
    assert_len(rt, bytes.len() as u64, bare, steady.inst.held());
    Ok(())
}

/// Each entry has 48 bytes.
fn assert_len(rt: &impl Abort, len: u64, bare: u64, held: u64) {
    assert!(rt; held < 1000);
    assert!(rt; bare < 1000);
    assert!(rt; len == bare + 48 * held);
}

/// Both accept the next element and give the same for it. They have one snapshot, and the second stops.
fn step(
    rt: &impl Abort,
    alloc: Global,
    plan: &Plan,
    bare: u64,
    steady: &mut Run,
    stopped: &mut Run,
) -> Result<(), Fail>
    requires steady { InstStands plan.now steady.old.inst }
    requires stopped { InstStands plan.now stopped.old.inst }
    ensures steady { IfOk result (λ _. InstStands plan.now steady.new.inst) }
    ensures stopped { IfOk result (λ _. InstStands plan.now stopped.new.inst) }
{
    steady.take(rt, alloc, plan, 1)?;
    stopped.take(rt, alloc, plan, 1)?;
    assert!(rt; steady.given == stopped.given);
    check_same(rt, alloc, plan, bare, steady, stopped)?;
    stop(rt, alloc, plan, stopped)
}

/// Both accept so many elements.
fn walk(
    rt: &impl Abort,
    alloc: Global,
    plan: &Plan,
    bare: u64,
    count: u64,
    steady: &mut Run,
    stopped: &mut Run,
) -> Result<(), Fail>
    requires steady { InstStands plan.now steady.old.inst }
    requires stopped { InstStands plan.now stopped.old.inst }
    ensures steady { IfOk result (λ _. InstStands plan.now steady.new.inst) }
    ensures stopped { IfOk result (λ _. InstStands plan.now stopped.new.inst) }
{
    check_same(rt, alloc, plan, bare, steady, stopped)?;
    stop(rt, alloc, plan, stopped)?;
    for _ in 0..count {
        step(rt, alloc, plan, bare, steady, stopped)?;
    }
    Ok(())
}

/// An instance that stops before the first element and after each gives what one gives that doesn't.
fn check_plan(
    rt: &impl Abort,
    alloc: Global,
    plan: &Plan,
    v: u32,
    bare: u64,
    count: u64,
    lines: &str,
) -> Result<(), Fail> {
    let mut steady = Run::begin(rt, alloc, plan, v)?;
    let mut stopped = Run::begin(rt, alloc, plan, v)?;
    walk(rt, alloc, plan, bare, count, &mut steady, &mut stopped)?;
    assert!(rt; wanted_by(rt, &steady.inst).is_none());
    assert!(rt; wanted_by(rt, &stopped.inst).is_none());
    stopped.check_given(rt, alloc, lines)
}

fn check(rt: &impl Abort, alloc: Global, case: Case<'_>) -> Result<(), Fail> {
    let (job, files, v, bare, count, lines) = case;
    let plan = made(alloc, job, files)?;
    check_plan(rt, alloc, &plan, v, bare, count, lines)
}

#[test]
fn instances_go_on_from_each_snapshot_as_if_they_had_never_stopped(
    rt: HostRuntime,
) -> Result<(), Fail> {
    let cases: [Case<'_>; 5] = [
        (SELECT, &[SELECT_FILE], 1, 75, 4, SELECT_LINES),
        (
            UNION,
            &[LEFT_OF_UNION, RIGHT_OF_UNION],
            2,
            91,
            6,
            UNION_LINES,
        ),
        (
            THREE,
            &[FIRST_OF_THREE, SECOND_OF_THREE],
            2,
            107,
            10,
            THREE_LINES,
        ),
        (WINDOW, &[WINDOW_FILE], 1, 79, 4, WINDOW_LINES),
        (JOIN, &[LEFT_OF_JOIN, RIGHT_OF_JOIN], 2, 99, 7, JOIN_LINES),
    ];
    for case in cases {
        check(&rt, rt.alloc(), case)?;
    }
    Ok(())
}
