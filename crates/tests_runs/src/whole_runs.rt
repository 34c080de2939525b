//! Whole runs in which nothing goes wrong, and what the devices then hold.
use fixtures::{COPY, SELECT, SmallJob, Trouble, WINDOW, call_all, started};
use ss_outside::Depot;
use std::alloc::Global;
use std::process::Abort;
use std::test::Fail;

/// A run, after which the vault tells these lines, so many elements of the streams 0 and 1 were stored, and the sink's
/// file has all its lines.
fn runs(
    rt: &impl Abort,
    alloc: Global,
    job: SmallJob<'_>,
    told: &str,
    stored: (u64, u64),
) -> Result<(), Fail> {
    let mut store = started(alloc, job, Trouble::None)?;
    assert!(rt; !store.all_ended() && store.started() == (0, 0, 0));
    call_all(alloc, &mut store, job.run)?;
    call_all(alloc, &mut store, told)?;
    assert!(rt; store.all_ended() && store.halted().is_none());
    let (depot, outputs) = store.into_parts();
    assert!(rt; (depot.appended(0), depot.appended(1)) == stored, "{told}");
    assert!(rt; outputs.bytes(job.output) == job.lines.as_bytes(), "{told}");
    Ok(())
}

#[test]
fn all_is_stored_and_put(rt: HostRuntime) -> Result<(), Fail> {
    let alloc = rt.alloc();
    let mut fresh = started(alloc, SELECT, Trouble::None)?;
    call_all(alloc, &mut fresh, "snaps: 0/0 low 0")?;
    let select = "
row 0: [0, 4, 0, 0]
row 1: [0, 4, 0, 0]
row 2: [0, 0, 0, 4]
counts: (8, 10)
snaps: 0/0 2/2 3/3 low 3
";
    runs(&rt, alloc, SELECT, select, (4, 4))?;
    let copy = "
row 0: [0, 3, 0, 0]
row 1: [0, 0, 0, 3]
counts: (3, 5)
";
    runs(&rt, alloc, COPY, copy, (3, 0))?;
    // The first two snapshots of the window come before it gives anything.
    let window = "
row 0: [0, 4, 0, 0]
row 1: [0, 5, 0, 0]
row 2: [0, 0, 0, 5]
counts: (9, 12)
snaps: 0/0 1/0 2/0 3/3 4/5 low 4
";
    runs(&rt, alloc, WINDOW, window, (4, 5))
}
