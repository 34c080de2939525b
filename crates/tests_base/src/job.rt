ghost use Rattle.std.specs.Prelude.{◌<◌, length};

use ss_expr::{Expr, Spec};
use ss_job::{Job, Op, read_job};
use std::alloc::{AllocError, Global};
use std::test::Fail;

const JOB_FILE: &str = "
[job]
max_elements = 1000
collect_every = 64

[[vertex]]
name = 'a'
op = 'source'
file = 'a.csv'
late = 'drop'
replicas = 2

[[vertex]]
name = 'b'
op = 'source'
file = 'b.csv'

[[vertex]]
name = 'chosen'
op = 'select'
inputs = ['a']
where = 'a > 1'
a = 'a + b'
d = 'a * d'
recover = 'replay'
every = 7
replicas = 3

[[vertex]]
name = 'all'
op = 'union'
inputs = ['b', 'chosen', 'b']

[[vertex]]
name = 'sums'
op = 'window'
inputs = ['all']
hop = 10
size = 30
agg = 'max'
of = 'b'

[[vertex]]
name = 'pairs'
op = 'join'
inputs = ['sums', 'b']

[[vertex]]
name = 'out'
op = 'sink'
inputs = ['pairs']
file = '-'
";

const LINES: [&str; 7] = [
    "a Source Source [] file a.csv Drop, 2 replicas",
    "b Source Source [] file b.csv Refuse, 1 replicas",
    "chosen Select Inner [0] test true at 2, a at 2, b at 0, c at 0, d at 2, Policy { replay: true, every: 7, replicas: 3 }, 3 replicas",
    "all Union Inner [1, 2, 1] Policy { replay: false, every: 64, replicas: 1 }, 1 replicas",
    "sums Window Inner [3] size 30, hop 10, Greatest of B, Policy { replay: false, every: 64, replicas: 1 }, 1 replicas",
    "pairs Join Inner [4, 1] Policy { replay: false, every: 64, replicas: 1 }, 1 replicas",
    "out Sink Sink [5] file -, 1 replicas",
];

fn shown_test(test: &Option<Expr>) -> (bool, u64) {
    match test {
        Some(test) => (true, test.place()),
        None => (false, 0),
    }
}

fn shown_spec(alloc: Global, spec: Option<&Spec>) -> Result<String, AllocError> {
    match spec {
        Some(Spec::Select { test, a, b, c, d }) => {
            let (is_tested, place) = shown_test(test);
            let (a, b, c, d) = (a.place(), b.place(), c.place(), d.place());
            format!(in alloc;
                "test {is_tested} at {place}, a at {a}, b at {b}, c at {c}, d at {d}, "
            )
        }
        Some(Spec::Window { size, hop, agg, of }) => {
            format!(in alloc; "size {size}, hop {hop}, {agg:?} of {of:?}, ")
        }
        Some(Spec::Session { gap, agg, of }) => {
            format!(in alloc; "gap {gap}, {agg:?} of {of:?}, ")
        }
        Some(Spec::Union | Spec::Join | Spec::Except) | None => format!(in alloc; ""),
    }
}

fn shown_op(alloc: Global, job: &Job, v: u32) -> Result<String, AllocError>
    requires { v < length job.now.vertices }
{
    let op = job.op(v);
    match op {
        Op::Source => {
            let (file, late) = (job.file(v), job.late(v));
            format!(in alloc; "file {file} {late:?}")
        }
        Op::Sink => {
            let file = job.file(v);
            format!(in alloc; "file {file}")
        }
        Op::Select | Op::Union | Op::Window | Op::Join | Op::Session | Op::Except => {
            let spec = shown_spec(alloc, job.spec(v))?;
            let policy = job.policy(v);
            format!(in alloc; "{spec}{policy:?}")
        }
    }
}

#[test]
fn a_job_of_each_op_is_read(rt: HostRuntime) -> Result<(), Fail> {
    let alloc = rt.alloc();
    let job = match read_job(alloc, JOB_FILE.as_bytes()) {
        Ok(job) => job,
        Err(fault) => {
            assert!(rt; false, "{fault:?}");
            return Ok(());
        }
    };
    assert_eq!(rt; job.max_elements(), 1000);
    assert_eq!(rt; job.collect_every(), 64);
    assert_eq!(rt; job.graph().count(), 7);
    assert_eq!(rt; job.roles().len(), 7);
    for (v, line) in LINES.iter().enumerate() {
        let v = v as u32;
        let role = job.roles()[v as usize];
        let node = job.graph().node(v);
        let name = std::str::from_utf8(role.name.as_slice())?;
        let (op, kind, replicas) = (job.op(v), role.kind, role.replicas);
        let inputs = &node.inputs[..node.width as usize];
        let what = shown_op(alloc, &job, v)?;
        let shown = format!(in alloc;
            "{name} {op:?} {kind:?} {inputs:?} {what}, {replicas} replicas"
        )?;
        assert_eq!(rt; shown.as_str(), *line);
    }
    Ok(())
}
