//! Elements at which a vertex would give more than its job allows.
ghost use Rattle.std.specs.Prelude.{IfOk};
ghost use Rattle.ss_vertex.specs.Standing.{InstStands};

use crate::jobs::WINDOW_FILE;
use crate::run::{Run, is_at, wanted_by};
use crate::snapshots::bytes_now;
use ss_plan::Plan;
use fixtures::made;
use ss_vertex::ExecFault;
use std::alloc::Global;
use std::process::Abort;
use std::test::Fail;

const UNION_OF_FOUR: &str = "
job = { max_elements = 3 }
vertex = [
    { name = 'in', op = 'source', file = 'in.csv' },
    { name = 'u', op = 'union', inputs = ['in', 'in'] },
    { name = 'out', op = 'sink', inputs = ['u'], file = 'out.csv' },
]
";

const WINDOW_OF_FIVE: &str = "
job = { max_elements = 4 }
vertex = [
    { name = 'in', op = 'source', file = 'in.csv' },
    { name = 'w', op = 'window', inputs = ['in'], size = 20, hop = 10, agg = 'sum' },
    { name = 'out', op = 'sink', inputs = ['w'], file = 'out.csv' },
]
";

/// A job with the file of its source, how many elements its vertex 1 accepts, how many it gives for them, and how many
/// it would have given after the next.
type Case<'a> = (&'a str, &'a str, u64, u64, u64);

/// The next element is refused, and the instance wants it still.
fn refuse(
    rt: &impl Abort,
    alloc: Global,
    plan: &Plan,
    run: &mut Run,
    reached: u64,
) -> Result<(), Fail>
    requires { InstStands plan.now run.old.inst }
    ensures { IfOk result (λ _. InstStands plan.now run.new.inst) }
{
    let wanted = wanted_by(rt, &run.inst);
    let answer = run.accept(rt, alloc, plan)?;
    assert!(rt; answer == Err(ExecFault::Full { reached }));
    assert!(rt; wanted_by(rt, &run.inst) == wanted);
    Ok(())
}

/// The next element is refused, and again, and the instance has the numbers and the snapshot that it had.
fn refuse_twice(
    rt: &impl Abort,
    alloc: Global,
    plan: &Plan,
    run: &mut Run,
    reached: u64,
) -> Result<(), Fail>
    requires { InstStands plan.now run.old.inst }
{
    let (n, next) = (run.inst.n(), run.inst.next());
    let before = bytes_now(rt, alloc, plan, run)?;
    refuse(rt, alloc, plan, run, reached)?;
    refuse(rt, alloc, plan, run, reached)?;
    assert!(rt; is_at(&run.inst, n, next, 0));
    let after = bytes_now(rt, alloc, plan, run)?;
    assert!(rt; before == after);
    Ok(())
}

fn check_plan(
    rt: &impl Abort,
    alloc: Global,
    plan: &Plan,
    accepted: u64,
    given: u64,
    reached: u64,
) -> Result<(), Fail> {
    let mut run = Run::begin(rt, alloc, plan, 1)?;
    run.take(rt, alloc, plan, accepted)?;
    assert!(rt; is_at(&run.inst, accepted, given, 0));
    refuse_twice(rt, alloc, plan, &mut run, reached)
}

fn check(rt: &impl Abort, alloc: Global, case: Case<'_>) -> Result<(), Fail> {
    let (job, file, accepted, given, reached) = case;
    let plan = made(alloc, job, &[file])?;
    check_plan(rt, alloc, &plan, accepted, given, reached)
}

#[test]
fn an_element_at_which_too_much_is_given_is_refused(rt: HostRuntime) -> Result<(), Fail> {
    let cases: [Case<'_>; 2] = [
        (UNION_OF_FOUR, "event,1,2,k,1,0\ncti,5\n", 5, 3, 4),
        (WINDOW_OF_FIVE, WINDOW_FILE, 3, 3, 5),
    ];
    for case in cases {
        check(&rt, rt.alloc(), case)?;
    }
    Ok(())
}
