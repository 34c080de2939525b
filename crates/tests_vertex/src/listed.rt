//! Instances of sources.
ghost use Rattle.std.specs.Prelude.{◌≡◌, Some, IfOk};
ghost use Rattle.ss_vertex.specs.Standing.{InstStands};

use crate::jobs::{WINDOW, WINDOW_FILE};
use crate::run::{Run, is_at, wanted_by};
use crate::streams::source;
use ss_plan::{Plan, vertices_by_number};
use fixtures::made;
use ss_vertex::Inst;
use std::alloc::Global;
use std::process::Abort;
use std::test::Fail;

const LIST_LINES: &str = "event,5,9,k,3,0\nevent,12,13,k,4,0\ncti,20\nend\n";

/// How long the list of a source's instance is.
fn len_of(rt: &impl Abort, plan: &Plan, inst: &Inst) -> u64
    requires { InstStands plan.now inst.now }
    ensures { inst.now.list ≡ Some result }
{
    plan.max_elements();
    vertices_by_number();
    let v = source(rt, plan, inst.v());
    plan.source_len(v)
}

/// Goes on behind the first `n` elements of its list.
fn list_from(rt: &impl Abort, plan: &Plan, run: &mut Run, n: u64) -> Result<(), Fail>
    requires { InstStands plan.now run.old.inst }
    ensures { IfOk result (λ _. InstStands plan.now run.new.inst) }
{
    plan.max_elements();
    let len = len_of(rt, plan, &run.inst);
    assert!(rt; n <= len);
    run.inst.load_source(n);
    assert!(rt; run.inst.is_up());
    assert!(rt; is_at(&run.inst, n, n, 0));
    Ok(())
}

/// Accepts so many elements, and wants this one then.
fn take(
    rt: &impl Abort,
    alloc: Global,
    plan: &Plan,
    run: &mut Run,
    count: u64,
    next: Option<(u32, u64)>,
) -> Result<(), Fail>
    requires { InstStands plan.now run.old.inst }
    ensures { IfOk result (λ _. InstStands plan.now run.new.inst) }
{
    run.take(rt, alloc, plan, count)?;
    assert!(rt; wanted_by(rt, &run.inst) == next);
    assert!(rt; run.inst.held() == 0);
    Ok(())
}

/// Accepts the whole list.
fn take_all(rt: &impl Abort, alloc: Global, plan: &Plan, run: &mut Run) -> Result<(), Fail>
    requires { InstStands plan.now run.old.inst }
    ensures { IfOk result (λ _. InstStands plan.now run.new.inst) }
{
    take(rt, alloc, plan, run, 0, Some((0, 0)))?;
    take(rt, alloc, plan, run, 3, Some((0, 3)))?;
    take(rt, alloc, plan, run, 1, None)?;
    assert!(rt; is_at(&run.inst, 4, 4, 0));
    Ok(())
}

/// Goes on at element 1, where an output is left; when it has crashed, at the end of the list; and at its last element.
fn go_to_and_fro(rt: &impl Abort, alloc: Global, plan: &Plan, run: &mut Run) -> Result<(), Fail>
    requires { InstStands plan.now run.old.inst }
    ensures { IfOk result (λ _. InstStands plan.now run.new.inst) }
{
    take(rt, alloc, plan, run, 2, Some((0, 2)))?;
    run.accept(rt, alloc, plan)??;
    assert!(rt; is_at(&run.inst, 3, 2, 1));
    list_from(rt, plan, run, 1)?;
    take(rt, alloc, plan, run, 2, Some((0, 3)))?;
    run.inst.crash();
    list_from(rt, plan, run, 4)?;
    take(rt, alloc, plan, run, 0, None)?;
    list_from(rt, plan, run, 3)?;
    take(rt, alloc, plan, run, 1, None)
}

fn check_whole(rt: &impl Abort, alloc: Global, plan: &Plan) -> Result<(), Fail> {
    let mut run = Run::begin(rt, alloc, plan, 0)?;
    take_all(rt, alloc, plan, &mut run)?;
    run.check_given(rt, alloc, LIST_LINES)
}

fn check_places(rt: &impl Abort, alloc: Global, plan: &Plan) -> Result<(), Fail> {
    let mut run = Run::begin(rt, alloc, plan, 0)?;
    go_to_and_fro(rt, alloc, plan, &mut run)?;
    run.check_given(rt, alloc, LIST_LINES)
}

#[test]
fn a_source_reads_its_list_to_its_end(rt: HostRuntime) -> Result<(), Fail> {
    let plan = made(rt.alloc(), WINDOW, &[WINDOW_FILE])?;
    check_whole(&rt, rt.alloc(), &plan)
}

#[test]
fn a_source_goes_on_at_any_place_of_its_list(rt: HostRuntime) -> Result<(), Fail> {
    let plan = made(rt.alloc(), WINDOW, &[WINDOW_FILE])?;
    check_places(&rt, rt.alloc(), &plan)
}
