//! What is told of a job that was started, at its end or where it stopped.
ghost use Rattle.std.specs.Prelude.{◌≡◌, OnErr, OnOk, [], ◌∷◌, ◌++◌, codes, get_or, length, option_map};
ghost use Rattle.ss_play.specs.Releasing.{ReleasesAll};
ghost use Rattle.ss_command.specs.Puts.{Wrote, put_of};
ghost use Rattle.ss_command.specs.Refusal.{refusal_of};
ghost use Rattle.ss_command.specs.Working.{stop_told, summary_name as name_of_summary, text_puts};

use crate::read::{name_of, too_long};
use crate::summary::summary_name;
use ss_job::Job;
use ss_outside::{Inputs, Outputs, PutFault};
use ss_play::{PlayFault, Report, release_all};
use ss_report::Fault;
use ss_run::Told;

/// Puts the report on acts to standard output, and then releases what the job needs no more of its sources' files.
pub(crate) fn tell_acts<I: Inputs, O: Outputs>(
    inputs: &mut I,
    outputs: &mut O,
    job: &Job,
    report: &Report,
) -> Result<(), PutFault>
    requires { length report.now.marks.items ≡ length job.now.vertices }
    ensures wrote { Wrote (O.told outputs.old) (O.told outputs.new)
        (put_of (codes "-") report.now.text.items ∷ []) result }
    ensures released { OnOk result (ReleasesAll job.now (λ v. get_or report.now.marks.items v 0)
        (I.told inputs.old) (I.told inputs.new)) }
    ensures kept { OnErr result (I.told inputs.new ≡ I.told inputs.old) }
{
    match outputs.put("-", report.text.as_slice()) {
        Ok(()) => (),
        Err(fault) => return Err(fault),
    }
    release_all(inputs, job, report.marks.as_slice());
    Ok(())
}

/// Puts the trace of a run to its name, if there is one, and then the summary; and then releases what the job needs no
/// more of its sources' files.
pub(crate) fn tell_run<I: Inputs, O: Outputs>(
    inputs: &mut I,
    outputs: &mut O,
    job: &Job,
    trace: Option<&str>,
    told: &Told,
) -> Result<(), PutFault>
    requires { length told.now.marks.items ≡ length job.now.vertices }
    ensures wrote { Wrote (O.told outputs.old) (O.told outputs.new)
        (text_puts (option_map (λ name. name.now) trace.entry) told.now.trace.items
        ++ text_puts (name_of_summary job.now) told.now.summary.items) result }
    ensures released { OnOk result (ReleasesAll job.now (λ v. get_or told.now.marks.items v 0)
        (I.told inputs.old) (I.told inputs.new)) }
    ensures kept { OnErr result (I.told inputs.new ≡ I.told inputs.old) }
{
    match put_texts(outputs, job, trace, told) {
        Ok(()) => (),
        Err(fault) => return Err(fault),
    }
    release_all(inputs, job, told.marks.as_slice());
    Ok(())
}

/// Puts the trace to its name, if there is one, and then the summary.
fn put_texts<O: Outputs>(
    outputs: &mut O,
    job: &Job,
    trace: Option<&str>,
    told: &Told,
) -> Result<(), PutFault>
    ensures { Wrote (O.told outputs.old) (O.told outputs.new)
        (text_puts (option_map (λ name. name.now) trace.entry) told.now.trace.items
        ++ text_puts (name_of_summary job.now) told.now.summary.items) result }
{
    match put_text(outputs, trace, told.trace.as_slice()) {
        Ok(()) => (),
        Err(fault) => return Err(fault),
    }
    match put_text(outputs, summary_name(job), told.summary.as_slice()) {
        Ok(()) => Ok(()),
        Err(fault) => Err(fault),
    }
}

/// Puts a text to a name, if there is one.
fn put_text<O: Outputs>(outputs: &mut O, name: Option<&str>, text: &[u8]) -> Result<(), PutFault>
    ensures { Wrote (O.told outputs.old) (O.told outputs.new)
        (text_puts (option_map (λ name. name.now) name.entry) text.now) result }
{
    match name {
        Some(name) => match outputs.put(name, text) {
            Ok(()) => Ok(()),
            Err(fault) => Err(fault),
        },
        None => Ok(()),
    }
}

/// How what stopped a job is told.
pub(crate) fn fault_of(job: &Job, stop: PlayFault) -> Fault<'_>
    ensures { refusal_of result ≡ stop_told job.now stop }
{
    match stop {
        PlayFault::Store => Fault::Store,
        PlayFault::Output => Fault::Output,
        PlayFault::Full { v } => too_long(job, v),
        PlayFault::Memory => Fault::Memory,
        PlayFault::Damaged { v, n } => Fault::Damaged {
            name: name_of(job, v),
            n,
        },
    }
}
