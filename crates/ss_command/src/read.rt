ghost use Rattle.std.specs.Prelude.{◌≡◌, ◌⊎◌, IfOk, IfErr, option_map};
ghost use Rattle.ss_outside.specs.Told.{KeepsInputs};
ghost use Rattle.ss_report.specs.StateText as state_text;
ghost use Rattle.ss_command.specs.Ends.{MayHave, Passes, PassesFailures, StopsInFailures, StopsOrWants, Unread};
ghost use Rattle.ss_command.specs.Ends.{WantsMemory};
ghost use Rattle.ss_command.specs.Order as spec;
ghost use Rattle.ss_command.specs.Order.{failures_file, job_file, schedule_file, source_file};
ghost use Rattle.ss_command.specs.Refusal.{refusal_of};
ghost use Rattle.ss_command.specs.Streams.{AreTextNames, IsSourceList};

use ss_elem::Element;
use ss_events::{EventsFault, Late, read_events};
use ss_fail::{Act, Role, ScriptsFault, Trigger, read_failures, read_schedule};
use ss_job::{Job, JobsFault, read_job};
use ss_outside::{InputFault, Inputs};
use ss_report::Fault;
use std::alloc::Global;
use std::str;

/// The bytes of a file.
fn read_file<'a, I: Inputs>(
    alloc: Global,
    inputs: &mut I,
    file: &'a str,
) -> Result<Vec<u8>, Fault<'a>>
    ensures bytes { IfOk result (λ bytes.
        MayHave (I.told inputs.old) file.entry.now bytes.items × KeepsInputs (I.told inputs.old) (I.told inputs.new)) }
    ensures fault { IfErr result (λ fault.
        Unread (I.told inputs.old) (I.told inputs.new) file.entry.now (refusal_of fault)
        ⊎ WantsMemory (I.told inputs.old) (I.told inputs.new) (refusal_of fault)) }
{
    let mut bytes = Vec::new(alloc);
    match inputs.read(file, &mut bytes) {
        Ok(()) => Ok(bytes),
        Err(InputFault::Failed) => Err(Fault::Inputs { file }),
        Err(InputFault::Memory) => Err(Fault::Memory),
    }
}

/// The job that a file says.
pub(crate) fn read_job_file<'a, I: Inputs>(
    alloc: Global,
    inputs: &mut I,
    file: &'a str,
) -> Result<Job, Fault<'a>>
    ensures job { IfOk result (Passes (I.told inputs.old) (I.told inputs.new) (job_file file.entry.now)) }
    ensures fault { IfErr result (λ fault.
        StopsOrWants (I.told inputs.old) (I.told inputs.new) (job_file file.entry.now) (refusal_of fault)) }
{
    let bytes = match read_file(alloc, inputs, file) {
        Ok(bytes) => bytes,
        Err(fault) => return Err(fault),
    };
    match read_job(alloc, bytes.as_slice()) {
        Ok(job) => Ok(job),
        Err(JobsFault::At(fault)) => Err(Fault::Job(fault)),
        Err(JobsFault::Memory) => Err(Fault::Memory),
    }
}

/// The elements that the file of a source has, which is vertex v. One with more than the job allows is refused.
pub(crate) fn read_event_file<'a, I: Inputs>(
    alloc: Global,
    inputs: &mut I,
    job: &'a Job,
    v: u32,
    file: &'a str,
    late: Late,
) -> Result<Vec<Element>, Fault<'a>>
    ensures list { IfOk result (λ list. Passes (I.told inputs.old) (I.told inputs.new)
        (source_file job.entry.now v file.entry.now late) list.items) }
    ensures sound { IfOk result (λ list. IsSourceList job.entry.now list.items) }
    ensures fault { IfErr result (λ fault. StopsOrWants (I.told inputs.old) (I.told inputs.new)
        (source_file job.entry.now v file.entry.now late) (refusal_of fault)) }
{
    let bytes = match read_file(alloc, inputs, file) {
        Ok(bytes) => bytes,
        Err(fault) => return Err(fault),
    };
    match read_events(alloc, bytes.as_slice(), late) {
        Ok(list) => {
            if list.len() as u64 <= job.max_elements() {
                Ok(list)
            } else {
                Err(too_long(job, v))
            }
        }
        Err(EventsFault::At(fault)) => Err(Fault::Events { file, fault }),
        Err(EventsFault::Memory) => Err(Fault::Memory),
    }
}

/// The acts on a job that a schedule says.
pub(crate) fn read_schedule_file<'a, I: Inputs>(
    alloc: Global,
    inputs: &mut I,
    job: &Job,
    file: &'a str,
) -> Result<Vec<Act>, Fault<'a>>
    ensures acts { IfOk result (λ acts. Passes (I.told inputs.old) (I.told inputs.new)
        (schedule_file job.now file.entry.now) acts.items) }
    ensures fault { IfErr result (λ fault. StopsOrWants (I.told inputs.old) (I.told inputs.new)
        (schedule_file job.now file.entry.now) (refusal_of fault)) }
{
    let bytes = match read_file(alloc, inputs, file) {
        Ok(bytes) => bytes,
        Err(fault) => return Err(fault),
    };
    // That a job has few roles is told with its graph.
    let _ = job.graph();
    match read_schedule(alloc, bytes.as_slice(), job.roles()) {
        Ok(acts) => Ok(acts),
        Err(ScriptsFault::At(fault)) => Err(Fault::Script { file, fault }),
        Err(ScriptsFault::Memory) => Err(Fault::Memory),
    }
}

/// The failures of a run: those that its file lists, or none where there is no file.
pub(crate) fn read_failures_of<'a, I: Inputs>(
    alloc: Global,
    inputs: &mut I,
    job: &Job,
    file: Option<&'a str>,
) -> Result<Vec<Trigger>, Fault<'a>>
    ensures triggers { IfOk result (λ triggers. PassesFailures (I.told inputs.old) (I.told inputs.new)
        job.now (option_map (λ file. file.now) file.entry) triggers.items) }
    ensures fault { IfErr result (λ fault. StopsInFailures (I.told inputs.old) (I.told inputs.new)
        job.now (option_map (λ file. file.now) file.entry) (refusal_of fault)) }
{
    match file {
        Some(file) => read_failures_file(alloc, inputs, job, file),
        None => Ok(Vec::new(alloc)),
    }
}

/// The failures of a job that a file lists.
fn read_failures_file<'a, I: Inputs>(
    alloc: Global,
    inputs: &mut I,
    job: &Job,
    file: &'a str,
) -> Result<Vec<Trigger>, Fault<'a>>
    ensures triggers { IfOk result (λ triggers. Passes (I.told inputs.old) (I.told inputs.new)
        (failures_file job.now file.entry.now) triggers.items) }
    ensures fault { IfErr result (λ fault. StopsOrWants (I.told inputs.old) (I.told inputs.new)
        (failures_file job.now file.entry.now) (refusal_of fault)) }
{
    let bytes = match read_file(alloc, inputs, file) {
        Ok(bytes) => bytes,
        Err(fault) => return Err(fault),
    };
    // That a job has few roles is told with its graph.
    let _ = job.graph();
    match read_failures(alloc, bytes.as_slice(), job.roles()) {
        Ok(triggers) => Ok(triggers),
        Err(ScriptsFault::At(fault)) => Err(Fault::Script { file, fault }),
        Err(ScriptsFault::Memory) => Err(Fault::Memory),
    }
}

/// The stream of this vertex is too long.
pub(crate) fn too_long(job: &Job, v: u32) -> Fault<'_>
    ensures { refusal_of result ≡ spec.too_long job.now v }
{
    Fault::Full {
        name: name_of(job, v),
        most: job.max_elements(),
    }
}

/// The name of a vertex, where there is one of this number.
pub(crate) fn name_of(job: &Job, v: u32) -> &str
    ensures { result.now ≡ state_text.name_of job.now.roles v }
{
    // That a name is text is told with the graph.
    let _ = job.graph();
    name_in(job.roles(), v)
}

/// The name of a role, where there is one of this number.
fn name_in(roles: &[Role], v: u32) -> &str
    requires { AreTextNames roles.now }
    ensures { result.now ≡ state_text.name_of roles.now v }
{
    match roles.get(v as usize) {
        Some(role) => match str::from_utf8(role.name.as_slice()) {
            Ok(name) => name,
            Err(_) => unreachable!(),
        },
        None => "",
    }
}
