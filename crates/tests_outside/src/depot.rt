ghost use Rattle.std.specs.Prelude.{◌≡◌, OnOk, is_err, true};
ghost use Rattle.ss_outside.specs.declared.depot.DepotFault.TheVariants as fault;

use ss_outside::{Depot, DepotCall, DepotFault, Failed, MemDepot};
use std::test::Fail;

/// The first append is listed, and nothing of it is held. The second takes its number.
#[test]
fn a_listed_append_fails(rt: HostRuntime) -> Result<(), Fail> {
    let mut depot = MemDepot::new(rt.alloc());
    depot.fail(DepotCall::Append, 1)?;
    failed(depot.append(3, 0, b"one"))?;
    assert_eq!(rt; depot.faults(), 1);
    depot.append(3, 0, b"two")?;
    let mut out = Vec::new(rt.alloc());
    depot.fetch(3, 0, &mut out)?;
    assert_eq!(rt; out.as_slice(), b"two".as_slice());
    assert_eq!(rt; depot.appended(3), 1);
    assert_eq!(rt; depot.appended(4), 0);
    assert_eq!(rt; depot.faults(), 1);
    Ok(())
}

/// The first fetch is listed, and leaves `out` as it was. The second has all.
#[test]
fn a_listed_fetch_fails(rt: HostRuntime) -> Result<(), Fail> {
    let mut depot = MemDepot::new(rt.alloc());
    depot.append(3, 0, b"one")?;
    depot.fail(DepotCall::Fetch, 1)?;
    let mut out = b"before".to_vec(rt.alloc())?;
    failed(depot.fetch(3, 0, &mut out))?;
    assert_eq!(rt; out.as_slice(), b"before".as_slice());
    assert_eq!(rt; (depot.faults(), depot.shorts()), (1, 0));
    depot.fetch(3, 0, &mut out)?;
    assert_eq!(rt; out.as_slice(), b"one".as_slice());
    assert_eq!(rt; (depot.faults(), depot.shorts()), (1, 0));
    Ok(())
}

/// The first fetch lacks the last byte, the second is of a record that has none, and the third has all.
#[test]
fn a_damaged_fetch_is_short(rt: HostRuntime) -> Result<(), Fail> {
    let mut depot = MemDepot::new(rt.alloc());
    depot.append(3, 0, b"one")?;
    depot.append(3, 1, b"")?;
    depot.damage(DepotCall::Fetch, 1)?;
    depot.damage(DepotCall::Fetch, 2)?;
    let mut out = Vec::new(rt.alloc());
    depot.fetch(3, 0, &mut out)?;
    assert_eq!(rt; out.as_slice(), b"on".as_slice());
    depot.fetch(3, 1, &mut out)?;
    assert_eq!(rt; out.as_slice(), b"".as_slice());
    depot.fetch(3, 0, &mut out)?;
    assert_eq!(rt; out.as_slice(), b"one".as_slice());
    assert_eq!(rt; (depot.faults(), depot.shorts()), (0, 2));
    Ok(())
}

/// The first cut is listed. The second goes past the last record.
#[test]
fn a_listed_cut_fails(rt: HostRuntime) -> Result<(), Fail> {
    let mut depot = MemDepot::new(rt.alloc());
    depot.fail(DepotCall::Cut, 1)?;
    depot.append(3, 0, b"one")?;
    refused(depot.cut(3, 1))?;
    assert_eq!(rt; depot.faults(), 1);
    depot.cut(3, 9)?;
    depot.append(3, 9, b"ten")?;
    let mut out = Vec::new(rt.alloc());
    depot.fetch(3, 9, &mut out)?;
    assert_eq!(rt; out.as_slice(), b"ten".as_slice());
    assert_eq!(rt; depot.faults(), 1);
    Ok(())
}

/// The first keep is listed, and nothing of it is held.
#[test]
fn a_listed_keep_fails(rt: HostRuntime) -> Result<(), Fail> {
    let mut depot = MemDepot::new(rt.alloc());
    depot.fail(DepotCall::Keep, 1)?;
    failed(depot.keep(3, 7, b"seven"))?;
    depot.keep(3, 7, b"7")?;
    let mut out = Vec::new(rt.alloc());
    depot.load(3, 7, &mut out)?;
    assert_eq!(rt; out.as_slice(), b"7".as_slice());
    assert_eq!(rt; (depot.faults(), depot.shorts()), (1, 0));
    Ok(())
}

/// The first load is listed, and the second lacks the last byte.
#[test]
fn a_listed_load_fails_and_a_damaged_one_is_short(rt: HostRuntime) -> Result<(), Fail> {
    let mut depot = MemDepot::new(rt.alloc());
    depot.keep(3, 7, b"seven")?;
    depot.fail(DepotCall::Load, 1)?;
    depot.damage(DepotCall::Load, 2)?;
    let mut out = b"before".to_vec(rt.alloc())?;
    failed(depot.load(3, 7, &mut out))?;
    assert_eq!(rt; out.as_slice(), b"before".as_slice());
    depot.load(3, 7, &mut out)?;
    assert_eq!(rt; out.as_slice(), b"seve".as_slice());
    assert_eq!(rt; (depot.faults(), depot.shorts()), (1, 1));
    Ok(())
}

/// The first drop is listed. The second, below 8, leaves frame 8.
#[test]
fn a_listed_drop_fails(rt: HostRuntime) -> Result<(), Fail> {
    let mut depot = MemDepot::new(rt.alloc());
    depot.keep(3, 7, b"seven")?;
    depot.keep(3, 8, b"eight")?;
    depot.fail(DepotCall::DropBelow, 1)?;
    refused(depot.drop_below(3, 8))?;
    let mut out = Vec::new(rt.alloc());
    depot.load(3, 7, &mut out)?;
    assert_eq!(rt; out.as_slice(), b"seven".as_slice());
    depot.drop_below(3, 8)?;
    depot.load(3, 8, &mut out)?;
    assert_eq!(rt; out.as_slice(), b"eight".as_slice());
    assert_eq!(rt; depot.faults(), 1);
    Ok(())
}

/// Ok where the call failed.
fn failed(answer: Result<(), DepotFault>) -> Result<(), &'static str>
    ensures { OnOk result (answer ≡ Err fault.Failed) }
{
    match answer {
        Err(DepotFault::Failed) => Ok(()),
        _ => Err("the call didn't fail"),
    }
}

/// Ok where the call, which takes no memory, failed.
fn refused(answer: Result<(), Failed>) -> Result<(), &'static str>
    ensures { OnOk result (is_err answer ≡ true) }
{
    match answer {
        Err(Failed) => Ok(()),
        Ok(()) => Err("the call didn't fail"),
    }
}
