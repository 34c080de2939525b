//! Starts of which the depot fails.
use ss_outside::{Depot, DepotCall};
use fixtures::{COPY, SELECT, SmallJob, Store, Trouble, WINDOW, made};
use ss_vault::VaultFault;
use std::alloc::Global;
use std::process::Abort;
use std::test::Fail;

/// Two selects, one behind the other.
const TWICE: SmallJob<'static> = SmallJob {
    text: "
vertex = [
    { name = 's', op = 'source', file = 's.csv' },
    { name = 'w', op = 'select', inputs = ['s'] },
    { name = 'x', op = 'select', inputs = ['w'] },
    { name = 'o', op = 'sink', inputs = ['x'], file = 'o.csv' },
]
",
    input: "",
    output: "o.csv",
    lines: "end\n",
    run: "",
};

/// The start fails at the keep of this number, which isn't tried again, and hands its devices back.
fn refused(rt: &impl Abort, alloc: Global, job: SmallJob<'_>, number: u64) -> Result<(), Fail> {
    let plan = made(alloc, job.text, &[job.input])?;
    match Store::start(alloc, plan, Trouble::Call(DepotCall::Keep, number))? {
        Ok(_) => assert!(rt; false, "{number}"),
        Err(back) => {
            assert_eq!(rt; back.fault, VaultFault::Store { count: 1 });
            assert_eq!(rt; back.depot.faults(), 1);
            assert!(rt; !back.outputs.was_put_to(job.output));
        }
    }
    Ok(())
}

#[test]
fn a_start_stops_at_each_first_snapshot(rt: HostRuntime) -> Result<(), Fail> {
    for (job, number) in [(SELECT, 1), (WINDOW, 1), (TWICE, 1), (TWICE, 2)] {
        refused(&rt, rt.alloc(), job, number)?;
    }
    Ok(())
}

#[test]
fn a_job_without_operators_keeps_nothing_at_its_start(rt: HostRuntime) -> Result<(), Fail> {
    let plan = made(rt.alloc(), COPY.text, &[COPY.input])?;
    let trouble = Trouble::Call(DepotCall::Keep, 1);
    assert!(rt; Store::start(rt.alloc(), plan, trouble)?.is_ok());
    Ok(())
}
