ghost use Rattle.std.specs.Prelude.{◌<◌, ◌≤◌, length};

use ss_events::{EventFault, EventWhy};
use ss_fail::{Act, Name, Outcome, Role};
use ss_job::{FieldName, JobFault, JobWhy, Op};
use ss_report::{Fault, StateRow, fault_line, fixed_line, state_line, status_of, trace_line};
use ss_water::Kind;
use std::test::Fail;

const USAGE: &str =
    "usage: streamscope check|plain|play|run|gen SUBJECT [--workers N] [--failures F] [--schedule F] [--trace F]\n";

fn job_fault<'a>(vertex: Option<u32>, why: JobWhy) -> Fault<'a> {
    Fault::Job(JobFault { vertex, why })
}

/// A row that starts below the bound.
fn early<'a>(file: &'a str, row: u64) -> Fault<'a> {
    let (start, bound) = (9, 10);
    let why = EventWhy::EarlyEvent { start, bound };
    let fault = EventFault { row, why };
    Fault::Events { file, fault }
}

#[test]
fn each_fault_has_its_line(rt: HostRuntime) -> Result<(), Fail> {
    let out_of_range = JobWhy::BadRange {
        field: FieldName::Size,
        got: -25,
        least: 10,
        most: 640,
    };
    let cases = [
        (Fault::Usage, USAGE),
        (
            job_fault(None, JobWhy::NoSink),
            "streamscope: job: no sink\n",
        ),
        (
            job_fault(Some(3), out_of_range),
            "streamscope: job: vertex 3: size is -25, not 10 to 640\n",
        ),
        (
            early("in.csv", 2),
            "streamscope: events in.csv: row 2: event starts at 9, before 10\n",
        ),
        (
            Fault::Inputs { file: "in.csv" },
            "streamscope: cannot read in.csv\n",
        ),
        (Fault::Output, "streamscope: output fault\n"),
        (Fault::Memory, "streamscope: out of memory\n"),
    ];
    let mut out = Vec::new(rt.alloc());
    for (fault, line) in cases {
        out.clear();
        fault_line(&fault, &mut out)?;
        assert!(rt; out.as_slice() == line.as_bytes(), "{line}");
        assert!(rt; fixed_line(&fault).unwrap_or(line) == line, "{line}");
    }
    assert!(rt; fixed_line(&Fault::Memory).is_some());
    assert_eq!(rt; status_of(&job_fault(None, JobWhy::NoSink)), 3);
    Ok(())
}

fn role(name: &[u8], kind: Kind) -> Role
    requires some { 0 < length name.now }
    requires few { length name.now ≤ 32 }
{
    Role {
        name: Name::of(name),
        kind,
        replicas: 1,
    }
}

#[test]
fn each_row_has_its_line(rt: HostRuntime) -> Result<(), Fail> {
    let roles = [
        role(b"in", Kind::Source),
        role(b"w", Kind::Inner),
        role(b"out", Kind::Sink),
    ];
    let join = StateRow::Vertex {
        v: 1,
        op: Op::Join,
        inputs: [0, 0, 9, 9, 9, 9, 9, 9],
        width: 2,
    };
    let mut out = Vec::new(rt.alloc());
    state_line(&join, &roles, &mut out)?;
    state_line(&StateRow::Checked { count: 3 }, &roles, &mut out)?;
    state_line(&StateRow::Summary { k: 2, taken: 3 }, &roles, &mut out)?;
    state_line(&StateRow::Done, &roles, &mut out)?;
    let text = b"1 w join in in\nok 3\nsink out 3\ndone\n";
    assert!(rt; out.as_slice() == text.as_slice());
    Ok(())
}

/// What comes of an act where no schedule shows it: a tail that stands apart from what is stored, and a second input.
#[test]
fn each_act_has_its_line(rt: HostRuntime) -> Result<(), Fail> {
    let roles = [role(b"s", Kind::Source)];
    let cases = [
        (Outcome::Apart { from: 5, dur: 4 }, "lose s: apart 5 4\n"),
        (Outcome::Gone { input: 1, n: 7 }, "lose s: gone 1 7\n"),
        (Outcome::Wait { input: 1, n: 7 }, "lose s: wait 1 7\n"),
        (Outcome::Pending { left: 2 }, "lose s: pending 2\n"),
    ];
    let mut out = Vec::new(rt.alloc());
    for (outcome, line) in cases {
        out.clear();
        trace_line(&Act::Lose { v: 0 }, &outcome, &roles, &mut out)?;
        assert!(rt; out.as_slice() == line.as_bytes(), "{line}");
    }
    Ok(())
}
