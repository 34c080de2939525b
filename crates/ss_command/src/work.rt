ghost use Rattle.std.specs.Prelude.{◌≡◌};
ghost use Rattle.ss_outside.specs.Depot.{no_contents};
ghost use Rattle.ss_vault.specs.Calls.{HaveNoBytes};
ghost use Rattle.ss_words.specs.Answers.{command_text, run_text};
ghost use Rattle.ss_words.specs.Words.{check_job, plain_job, play_job, run_job};
ghost use Rattle.ss_command.specs.Ends.{EndsBy};
ghost use Rattle.ss_command.specs.Order.{last, order_for, puts};
ghost use Rattle.ss_command.specs.Output.{job_lines, made_from};
ghost use Rattle.ss_command.specs.Seen.{seen};

use crate::check::check;
use crate::generate::generate;
use crate::outside::{Done, Outside};
use crate::command::refused;
use crate::plain::plain;
use crate::play::play;
use crate::read::read_job_file;
use crate::run::run;
use ss_job::Job;
use ss_outside::{Depot, Inputs, Outputs, PutFault};
use ss_report::Fault;
use ss_words::{Command, RunOptions};
use std::alloc::Global;

/// Does the work of a command, and tells the fault where one stopped it.
pub(crate) fn work<I: Inputs, O: Outputs, D: Depot>(
    alloc: Global,
    command: &Command<'_>,
    outside: Outside<I, O, D>,
) -> Done<I, O, D>
    requires depot { (D.told outside.depot).contents ≡ no_contents }
    requires outputs { HaveNoBytes (O.told outside.outputs) }
    ensures { EndsBy (order_for (command_text command.now))
        (seen I.told O.told D.told outside) (seen I.told O.told D.told result.outside) result.status }
{
    match command {
        Command::Check { job } => on_check(alloc, job, outside),
        Command::Plain { job } => on_plain(alloc, job, outside),
        Command::Run { job, run: options } => on_run(alloc, job, options, outside),
        Command::Play { job, schedule } => on_play(alloc, job, schedule, outside),
        Command::Gen { seed } => make(alloc, *seed, outside),
    }
}

/// Reads the job that a file says, and shows it.
fn on_check<I: Inputs, O: Outputs, D: Depot>(
    alloc: Global,
    file: &str,
    mut outside: Outside<I, O, D>,
) -> Done<I, O, D>
    ensures { EndsBy (order_for (check_job file.now))
        (seen I.told O.told D.told outside) (seen I.told O.told D.told result.outside) result.status }
{
    match read_job_file(alloc, &mut outside.inputs, file) {
        Ok(job) => show(alloc, &job, outside),
        Err(fault) => refused(alloc, outside, &fault),
    }
}

/// Reads the job that a file says, and computes what each sink takes.
fn on_plain<I: Inputs, O: Outputs, D: Depot>(
    alloc: Global,
    file: &str,
    mut outside: Outside<I, O, D>,
) -> Done<I, O, D>
    ensures { EndsBy (order_for (plain_job file.now))
        (seen I.told O.told D.told outside) (seen I.told O.told D.told result.outside) result.status }
{
    match read_job_file(alloc, &mut outside.inputs, file) {
        Ok(job) => plain(alloc, job, outside),
        Err(fault) => refused(alloc, outside, &fault),
    }
}

/// Reads the job that a file says, and does its work.
fn on_run<I: Inputs, O: Outputs, D: Depot>(
    alloc: Global,
    file: &str,
    options: &RunOptions<'_>,
    mut outside: Outside<I, O, D>,
) -> Done<I, O, D>
    requires depot { (D.told outside.depot).contents ≡ no_contents }
    requires outputs { HaveNoBytes (O.told outside.outputs) }
    ensures { EndsBy (order_for (run_job file.now (run_text options.now)))
        (seen I.told O.told D.told outside) (seen I.told O.told D.told result.outside) result.status }
{
    match read_job_file(alloc, &mut outside.inputs, file) {
        Ok(job) => run(alloc, job, options, outside),
        Err(fault) => refused(alloc, outside, &fault),
    }
}

/// Reads the job that a file says, and makes the acts of a schedule.
fn on_play<I: Inputs, O: Outputs, D: Depot>(
    alloc: Global,
    file: &str,
    schedule: &str,
    mut outside: Outside<I, O, D>,
) -> Done<I, O, D>
    requires depot { (D.told outside.depot).contents ≡ no_contents }
    requires outputs { HaveNoBytes (O.told outside.outputs) }
    ensures { EndsBy (order_for (play_job file.now schedule.now))
        (seen I.told O.told D.told outside) (seen I.told O.told D.told result.outside) result.status }
{
    match read_job_file(alloc, &mut outside.inputs, file) {
        Ok(job) => play(alloc, job, schedule, outside),
        Err(fault) => refused(alloc, outside, &fault),
    }
}

/// Makes a job with large event files, and tells the fault where one stops that.
fn make<I: Inputs, O: Outputs, D: Depot>(
    alloc: Global,
    seed: u64,
    mut outside: Outside<I, O, D>,
) -> Done<I, O, D>
    ensures { EndsBy (last (puts (made_from seed)))
        (seen I.told O.told D.told outside) (seen I.told O.told D.told result.outside) result.status }
{
    match generate(alloc, &mut outside.outputs, seed) {
        Ok(()) => Done { status: 0, outside },
        Err(PutFault::Failed) => refused(alloc, outside, &Fault::Output),
        Err(PutFault::Memory) => refused(alloc, outside, &Fault::Memory),
    }
}

/// Puts the lines of a job, and tells the fault where one stops that.
fn show<I: Inputs, O: Outputs, D: Depot>(
    alloc: Global,
    job: &Job,
    mut outside: Outside<I, O, D>,
) -> Done<I, O, D>
    ensures { EndsBy (last (puts (job_lines job.now)))
        (seen I.told O.told D.told outside) (seen I.told O.told D.told result.outside) result.status }
{
    match check(alloc, &mut outside.outputs, job) {
        Ok(()) => Done { status: 0, outside },
        Err(PutFault::Failed) => refused(alloc, outside, &Fault::Output),
        Err(PutFault::Memory) => refused(alloc, outside, &Fault::Memory),
    }
}
