//! What the driver tells where it can't bring a job to its end, and what the job then is.
use crate::driving::finish_alone;
use fixtures::{FILE, JOB, LINES, O, Running, S, Trouble, W, has_put, leave_behind};
use ss_outside::DepotCall;
use ss_serial::SerialFault;
use ss_vault::VaultFault;
use std::alloc::Global;
use std::test::Fail;

/// What is stored when a job stops: of the source and of the select base and dur, how many snapshots of the select and
/// which is the first, and how many lines were put.
#[derive(Clone, Copy, Debug, PartialEq, Eq)]
struct Stored {
    source: (u64, u64),
    select: (u64, u64),
    snaps: (usize, Option<u64>),
    taken: u64,
}

/// So much of both streams from their beginning on, and the first snapshot.
const fn from_the_start(source: u64, select: u64, taken: u64) -> Stored {
    Stored {
        source: (0, source),
        select: (0, select),
        snaps: (1, Some(0)),
        taken,
    }
}

/// A trouble, the fault that it is told as, what is stored then, and how many bytes the sink's file has.
#[derive(Clone, Copy, Debug)]
struct Case {
    trouble: Trouble,
    fault: VaultFault,
    stored: Stored,
    bytes: usize,
}

/// A call of the depot fails.
const fn failing(which: DepotCall, number: u64, stored: Stored, bytes: usize) -> Case {
    Case {
        trouble: Trouble::Call(which, number),
        fault: VaultFault::Store { count: 1 },
        stored,
        bytes,
    }
}

/// The record of an element of the select isn't whole.
const fn short(number: u64, n: u64, stored: Stored, bytes: usize) -> Case {
    Case {
        trouble: Trouble::ShortFetch(number),
        fault: VaultFault::Damaged { v: W, n },
        stored,
        bytes,
    }
}

/// A put fails behind its first three bytes, and `bytes` were put before.
const fn cut_off(number: u64, stored: Stored, bytes: usize) -> Case {
    Case {
        trouble: Trouble::Put { number, kept: 3 },
        fault: VaultFault::Output { count: 1 },
        stored,
        bytes: bytes.saturating_add(3),
    }
}

/// What is stored of the small job.
fn stored_of(running: &Running) -> Result<Stored, Fail> {
    let (source, select) = (running.stream(S)?, running.stream(W)?);
    Ok(Stored {
        source: (source.0, source.1),
        select: (select.0, select.1),
        snaps: running.snaps(W)?,
        taken: running.taken(O)?,
    })
}

/// Compares what is stored, and what halted the job.
fn tells(running: &Running, case: Case) -> Result<(), Fail> {
    let (stored, halted) = (stored_of(running)?, running.halted());
    if stored == case.stored && halted == Some(case.fault) {
        Ok(())
    } else {
        Err(Fail::new(format_args!("{case:?}: {stored:?} {halted:?}")))
    }
}

/// Drives the job, which meets this fault.
fn meets(running: Running, fault: VaultFault, case: Case) -> Result<Running, Fail> {
    let (running, finished) = finish_alone(running);
    if finished != Err(SerialFault::Vault(fault)) {
        return Err(Fail::new(format_args!("{case:?}: {finished:?}")));
    }
    tells(&running, case)?;
    Ok(running)
}

/// The sink's file has the first bytes of this text.
fn has_first(running: Running, text: &str, case: Case) -> Result<(), Fail> {
    let (_, outputs) = running.into_devices();
    let bytes = outputs.bytes("o.csv");
    if bytes.len() == case.bytes && text.as_bytes().starts_with(bytes) {
        Ok(())
    } else {
        Err(Fail::new(format_args!("{case:?}: other bytes")))
    }
}

/// The job meets its trouble, and stays as it then is: also if it is driven again, and if its memory is lost.
fn stops(running: Running, case: Case, text: &str) -> Result<(), Fail> {
    let running = meets(running, case.fault, case)?;
    let mut running = meets(running, VaultFault::Halted, case)?;
    running.wipe();
    let running = meets(running, VaultFault::Halted, case)?;
    has_first(running, text, case)
}

/// A job that has lost its memory behind a collect and a put, with six appends, one load and one fetch before.
fn stops_behind(alloc: Global, case: Case) -> Result<(), Fail> {
    let mut running = Running::over(alloc, JOB, &[FILE], case.trouble)?;
    leave_behind(&mut running)?;
    running.wipe();
    stops(running, case, LINES)
}

#[test]
fn a_device_that_fails_ends_a_recovery(rt: HostRuntime) -> Result<(), Fail> {
    let before = Stored {
        source: (3, 3),
        select: (0, 3),
        snaps: (2, Some(0)),
        taken: 1,
    };
    let source = Stored {
        source: (3, 4),
        ..before
    };
    let both = Stored {
        select: (0, 4),
        ..source
    };
    let short_load = Case {
        trouble: Trouble::ShortLoad(2),
        fault: VaultFault::Damaged { v: W, n: 3 },
        stored: source,
        bytes: 16,
    };
    let cases = [
        failing(DepotCall::Append, 7, before, 16),
        failing(DepotCall::Load, 2, source, 16),
        short_load,
        failing(DepotCall::Append, 8, source, 16),
    ];
    for case in cases {
        stops_behind(rt.alloc(), case)?;
    }
    for (taken, bytes) in [(1, 16), (2, 32), (3, 48)] {
        let stored = Stored { taken, ..both };
        let cases = [
            failing(DepotCall::Fetch, 1 + taken, stored, bytes),
            short(1 + taken, taken, stored, bytes),
            cut_off(1 + taken, stored, bytes),
        ];
        for case in cases {
            stops_behind(rt.alloc(), case)?;
        }
    }
    Ok(())
}

/// A union of one stream with itself, of which four elements are too many.
const TWICE: &str = "
job = { max_elements = 3 }
vertex = [
    { name = 'in', op = 'source', file = 'in.csv' },
    { name = 'u', op = 'union', inputs = ['in', 'in'] },
    { name = 'out', op = 'sink', inputs = ['u'], file = 'out.csv' },
]
";

/// The union has taken five of its six elements and given three, none of which is stored; what it reads is.
fn is_full(running: &Running) -> Result<bool, Fail> {
    let (source, union) = (running.stream(0)?, running.stream(1)?);
    let stored = (source.0, source.1, union.0, union.1);
    Ok(running.inst(1, 0)? == Some((5, 3, 0)) && stored == (0, 3, 0, 0))
}

/// The driver comes to the read that would be too much, and no further. It halts nothing.
fn fills(running: Running) -> Result<Running, Fail> {
    let (running, finished) = finish_alone(running);
    let full = SerialFault::Full { v: 1, reached: 4 };
    if finished == Err(full) && running.halted().is_none() && is_full(&running)? {
        Ok(running)
    } else {
        Err(Fail::new(format_args!("{finished:?}")))
    }
}

#[test]
fn a_stream_that_is_too_long_ends_a_run(rt: HostRuntime) -> Result<(), Fail> {
    let file = "event,1,2,k,1,0\ncti,5\n";
    let running = fills(Running::start(rt.alloc(), TWICE, &[file])?)?;
    // The same comes of it again, also from what is stored alone.
    let mut running = fills(running)?;
    running.wipe();
    let (_, outputs) = fills(running)?.into_devices();
    assert!(rt; !outputs.was_put_to("out.csv"));
    Ok(())
}

/// It changes nothing that a job is driven which has ended.
fn stays(running: Running) -> Result<Running, Fail> {
    let before = (running.journal(), running.trace().len());
    let (running, again) = finish_alone(running);
    let after = (running.journal(), running.trace().len());
    if again == Ok(()) && after == before && stored_of(&running)? == from_the_start(4, 4, 4) {
        Ok(running)
    } else {
        Err(Fail::new(format_args!("{again:?}")))
    }
}

#[test]
fn a_job_that_has_ended_stays_as_it_is(rt: HostRuntime) -> Result<(), Fail> {
    let (running, finished) = finish_alone(Running::start(rt.alloc(), JOB, &[FILE])?);
    assert!(rt; finished == Ok(()), "{finished:?}");
    has_put(stays(running)?, LINES)
}
