//! The release of files, where marks differ that no play brings about.
use ss_job::{Job, read_job};
use ss_outside::MemInputs;
use ss_play::release_all;
use std::process::Abort;
use std::test::Fail;

/// Releases the files of a job's sources, where there is a mark for each vertex.
fn release(inputs: &mut MemInputs, job: &Job, marks: &[u64]) -> bool {
    let there = marks.len() == job.graph().count() as usize;
    if there {
        release_all(inputs, job, marks);
    }
    there
}

#[test]
fn a_file_of_two_sources_is_released_at_their_least_mark(rt: HostRuntime) -> Result<(), Fail> {
    let alloc = rt.alloc();
    let job = b"vertex = [
    { name = 'one', op = 'source', file = 's.csv' },
    { name = 'two', op = 'source', file = 's.csv' },
    { name = 'both', op = 'union', inputs = ['one', 'two'] },
    { name = 'o', op = 'sink', inputs = ['both'], file = 'o.csv' },
]
";
    let job = read_job(alloc, job)?;
    let mut inputs = MemInputs::new(alloc);
    inputs.add("s.csv", b"cti,1\n")?;
    inputs.add("o.csv", b"")?;
    assert!(rt; release(&mut inputs, &job, &[5, 3, 0, 0]));
    assert!(rt; inputs.mark("s.csv") == Some(3));
    assert!(rt; inputs.mark("o.csv") == Some(0));
    Ok(())
}
