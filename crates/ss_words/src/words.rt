ghost use Rattle.std.specs.Prelude.{◌≡◌, false, IfOk, map, option_map, string_bytes};
ghost use Rattle.clap.specs.Words.{app_of, first_of, found_of, kind_of, rows_of, rule_of};
ghost use Rattle.ss_words.specs.Words as spec;
ghost use Rattle.ss_words.specs.Answers.{AnswersReading, command_text, fault_of_kind, given_text, run_text};

use crate::command::{Command, RunOptions};
use crate::given::{Given, file_given, is_file_word, seed_in, workers_given};
use clap::error::ErrorKind;
use clap::{Arg, ArgMatches, Error};
use std::alloc::{AllocError, Global};

const PROGRAM: &str = "streamscope";

const ACTION: &str = "ACTION";

const SUBJECT: &str = "SUBJECT";

const SCHEDULE: &str = "schedule";

const FAILURES: &str = "failures";

const TRACE: &str = "trace";

const WORKERS: &str = "workers";

/// Why words give no command.
#[derive(Clone, Copy, Debug, PartialEq, Eq)]
pub enum WordsFault {
    /// The words are no command. Words that ask for help or for a version are none.
    Usage,
    /// Memory ran out, which says nothing of the words.
    Memory,
}

/// Reads the words after the program's name.
///
/// A command is an action, `check`, `plain`, `run` or `play`, and then the name of a job file; or `gen` and then
/// decimal digits with a value below 2^64, which takes no option. Options stand in any place before the word `--`, each at most once. `play` takes `--schedule`, which has to be given and names the
/// schedule's file. `run` takes `--failures`, the file that lists failures, and either `--trace`, the name that the
/// trace is put to, or `--workers`, decimal digits with a value of 1 to 8. Names have 1 to 200 bytes. A word that
/// begins with `-` and has more bytes names a job file only behind the word `--`, and is the value of an option only
/// as in `--schedule=-x`.
#[tactic(auto, unfolding(crate::specs::Words::command_of))]
pub fn command_of(alloc: Global, words: &[String]) -> Result<Command<'_>, WordsFault>
    ensures { AnswersReading command_text result (spec.command_of (map string_bytes words.now)) }
{
    match matches_of(alloc, words) {
        Ok(matches) => match command_in(&matches) {
            Some(command) => Ok(command),
            None => Err(WordsFault::Usage),
        },
        Err(WordsFault::Usage) => Err(WordsFault::Usage),
        Err(WordsFault::Memory) => Err(WordsFault::Memory),
    }
}

/// What `clap` finds in the words, where it takes them.
fn matches_of(alloc: Global, words: &[String]) -> Result<ArgMatches<'_>, WordsFault>
    ensures { AnswersReading (λ matches. rows_of (found_of matches)) result
        (spec.rows_in (map string_bytes words.now)) }
{
    let Ok(command_line) = command_line(alloc) else {
        return Err(WordsFault::Memory);
    };
    match command_line.try_get_matches_from(words) {
        Ok(matches) => Ok(matches),
        Err(error) => Err(fault_of(&error)),
    }
}

/// The command line: an action, a subject and the options. The program's name is none of its words.
fn command_line<'a>(alloc: Global) -> Result<clap::Command<'a>, AllocError>
    ensures { IfOk result (λ command_line. app_of command_line ≡ spec.command_line) }
{
    let action = required_word(alloc, ACTION);
    let subject = required_word(alloc, SUBJECT);
    let schedule = option_with_value(alloc, SCHEDULE);
    let failures = option_with_value(alloc, FAILURES);
    let trace = option_with_value(alloc, TRACE);
    let workers = option_with_value(alloc, WORKERS);
    clap::Command::new(alloc, PROGRAM)
        .no_binary_name(true)
        .arg(action)?
        .arg(subject)?
        .arg(schedule)?
        .arg(failures)?
        .arg(trace)?
        .arg(workers)
}

/// A word that has to be given.
fn required_word<'a>(alloc: Global, name: &'a str) -> Arg<'a>
    ensures rule { rule_of result ≡ spec.required_word name.entry.now }
    ensures local { result.global ≡ false }
{
    Arg::new(alloc, name).required(true)
}

/// An option with one value, which may be given once.
fn option_with_value<'a>(alloc: Global, name: &'a str) -> Arg<'a>
    ensures rule { rule_of result ≡ spec.option_with_value name.entry.now }
    ensures local { result.global ≡ false }
{
    Arg::new(alloc, name).long(name)
}

/// Why words that `clap` didn't take give no command.
fn fault_of(error: &Error) -> WordsFault
    ensures { result ≡ fault_of_kind (kind_of error.now) }
{
    match error.kind() {
        ErrorKind::OutOfMemory => WordsFault::Memory,
        _ => WordsFault::Usage,
    }
}

/// The command that words say in which `clap` found this.
fn command_in<'a>(matches: &ArgMatches<'a>) -> Option<Command<'a>>
    ensures { option_map command_text result ≡ spec.command_in (rows_of (found_of matches.now)) }
{
    let action = word_at(matches, ACTION)?;
    let subject = word_at(matches, SUBJECT)?;
    command_for(action, subject, &given_in(matches))
}

/// The values of the options that `clap` found.
fn given_in<'a>(matches: &ArgMatches<'a>) -> Given<'a>
    ensures { given_text result ≡ spec.given_in (rows_of (found_of matches.now)) }
{
    Given {
        schedule: word_at(matches, SCHEDULE),
        failures: word_at(matches, FAILURES),
        trace: word_at(matches, TRACE),
        workers: word_at(matches, WORKERS),
    }
}

/// The word that `clap` found for a name.
fn word_at<'a>(matches: &ArgMatches<'a>, name: &str) -> Option<&'a str>
    ensures { option_map (λ word. word.now) result ≡ first_of name.now (rows_of (found_of matches.now)) }
{
    matches.get_str(name)
}

/// The command of an action with a subject and options.
fn command_for<'a>(action: &str, subject: &'a str, given: &Given<'a>) -> Option<Command<'a>>
    ensures { option_map command_text result
        ≡ spec.command_for action.now subject.entry.now (given_text given.now) }
{
    match action {
        "gen" => gen_of(subject, given),
        _ => {
            if is_file_word(subject) {
                command_with_job(action, subject, given)
            } else {
                None
            }
        }
    }
}

/// A job is made from a seed.
fn gen_of<'a>(word: &str, given: &Given<'a>) -> Option<Command<'a>>
    ensures { option_map command_text result ≡ spec.gen_given word.now (given_text given.now) }
{
    let seed = seed_in(word)?;
    alone(Command::Gen { seed }, given)
}

/// The command of an action with a job file and options.
fn command_with_job<'a>(action: &str, job: &'a str, given: &Given<'a>) -> Option<Command<'a>>
    ensures { option_map command_text result
        ≡ spec.command_with_job action.now job.entry.now (given_text given.now) }
{
    match action {
        "check" => alone(Command::Check { job }, given),
        "plain" => alone(Command::Plain { job }, given),
        "run" => run_of(job, given),
        "play" => play_of(job, given),
        _ => None,
    }
}

/// A command that takes no option.
fn alone<'a>(command: Command<'a>, given: &Given<'a>) -> Option<Command<'a>>
    ensures { option_map command_text result ≡ spec.alone (command_text command.entry) (given_text given.now) }
{
    if given.gives_no_run() && given.schedule.is_none() {
        Some(command)
    } else {
        None
    }
}

/// A job is run with these options.
fn run_of<'a>(job: &'a str, given: &Given<'a>) -> Option<Command<'a>>
    ensures { option_map command_text result
        ≡ option_map (spec.run_job job.entry.now) (spec.run_given (given_text given.now)) }
{
    let run = run_given(given)?;
    Some(Command::Run { job, run })
}

/// How a job is run: with workers there is no trace.
fn run_given<'a>(given: &Given<'a>) -> Option<RunOptions<'a>>
    ensures { option_map run_text result ≡ spec.run_given (given_text given.now) }
{
    if given.schedule.is_some() || (given.trace.is_some() && given.workers.is_some()) {
        return None;
    }
    let failures = file_given(given.failures)?;
    let trace = file_given(given.trace)?;
    let workers = workers_given(given.workers)?;
    Some(RunOptions {
        failures,
        trace,
        workers,
    })
}

/// A schedule is played on a job.
fn play_of<'a>(job: &'a str, given: &Given<'a>) -> Option<Command<'a>>
    ensures { option_map command_text result
        ≡ option_map (spec.play_job job.entry.now) (spec.schedule_given (given_text given.now)) }
{
    if !given.gives_no_run() {
        return None;
    }
    let schedule = given.schedule?;
    if is_file_word(schedule) {
        Some(Command::Play { job, schedule })
    } else {
        None
    }
}
