ghost use Rattle.std.specs.Prelude.{◌≡◌, ◌<◌, length, option_map};
ghost use Rattle.ss_command.specs.Output.{shows, shows_sink};
ghost use Rattle.ss_command.specs.Working as working;

use crate::sinks::sink_file;
use ss_job::Job;

/// Where the summary of a run goes: to standard output, unless a sink writes there.
pub(crate) fn summary_name(job: &Job) -> Option<&'static str>
    ensures { option_map (λ name. name.now) result ≡ working.summary_name job.now }
{
    if shows_sink(job) { None } else { Some("-") }
}

/// Whether a sink writes to standard output.
fn shows_sink(job: &Job) -> bool
    ensures { result ≡ shows_sink job.now }
{
    for v in 0..job.graph().count() {
        if shows(job, v) {
            return true;
        }
    }
    false
}

/// Whether a vertex is a sink that writes to standard output.
fn shows(job: &Job, v: u32) -> bool
    requires { v < length job.now.vertices }
    ensures { result ≡ shows job.now v }
{
    match sink_file(job, v) {
        Some(file) => file == "-",
        None => false,
    }
}
