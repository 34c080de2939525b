ghost use Rattle.std.specs.Prelude.{◌≡◌, map, string_bytes};
ghost use Rattle.ss_outside.specs.Depot.{no_contents};
ghost use Rattle.ss_report.specs.FaultText.{fault_text};
ghost use Rattle.ss_vault.specs.Calls.{HaveNoBytes};
ghost use Rattle.ss_words.specs.Words.{command_of};
ghost use Rattle.ss_command.specs.Ends.{Ends, TellsLine};
ghost use Rattle.ss_command.specs.Refusal.{refusal_of};
ghost use Rattle.ss_command.specs.Seen.{seen};

use crate::outside::{Done, Outside};
use crate::work::work;
use ss_job::job_file_has_one_reading;
use ss_outside::{Depot, Inputs, Outputs, PutFault};
use ss_report::{Fault, fault_line, fixed_line, status_of};
use ss_words::{WordsFault, command_of};
use std::alloc::Global;

/// Does what the words after the program's name say, and ends with a status:
///
/// | status | what ended the command |
/// |---|---|
/// | 0 | nothing: the work is done, and all that belongs to it is written |
/// | 2 | the words are no command |
/// | 3 | the job file says no job |
/// | 4 | a source's file is no file of events |
/// | 5 | a file could not be read |
/// | 6 | the store failed |
/// | 7 | an output failed |
/// | 8 | the schedule's file says no acts, or the file of failures lists none |
/// | 9 | a stream has more elements than the job allows |
/// | 10 | memory ran out |
/// | 11 | the store gave bytes that aren't what was stored |
///
/// Where the status isn't 0, one line that tells the fault is put to standard error, behind whatever the
/// command had written; whether that put succeeds doesn't change the status. The depot has to hold nothing, and no
/// output bytes, as far as it is told.
pub fn perform<I: Inputs, O: Outputs, D: Depot>(
    alloc: Global,
    words: &[String],
    outside: Outside<I, O, D>,
) -> Done<I, O, D>
    requires depot { (D.told outside.depot).contents ≡ no_contents }
    requires outputs { HaveNoBytes (O.told outside.outputs) }
    ensures { Ends (command_of (map string_bytes words.now))
        (seen I.told O.told D.told outside) (seen I.told O.told D.told result.outside) result.status }
{
    // That bytes say one job or one fault is why each status comes exactly where the files call for it.
    job_file_has_one_reading();
    match command_of(alloc, words) {
        Ok(command) => work(alloc, &command, outside),
        Err(WordsFault::Usage) => refused(alloc, outside, &Fault::Usage),
        Err(WordsFault::Memory) => refused(alloc, outside, &Fault::Memory),
    }
}

/// Ends a command for a fault, whose line it puts to standard error.
pub(crate) fn refused<I: Inputs, O: Outputs, D: Depot>(
    alloc: Global,
    mut outside: Outside<I, O, D>,
    fault: &Fault<'_>,
) -> Done<I, O, D>
    ensures status { result.status ≡ (refusal_of fault.now).status }
    ensures line { TellsLine (O.told outside.outputs) (O.told result.outside.outputs) (fault_text fault.now) }
    ensures inputs { I.told result.outside.inputs ≡ I.told outside.inputs }
    ensures depot { D.told result.outside.depot ≡ D.told outside.depot }
{
    let status = refuse(alloc, &mut outside.outputs, fault);
    Done { status, outside }
}

/// Puts the fault's line to standard error, and gives the fault's status.
pub fn refuse<O: Outputs>(alloc: Global, outputs: &mut O, fault: &Fault<'_>) -> u8
    ensures status { result ≡ (refusal_of fault.now).status }
    ensures line { TellsLine (O.told outputs.old) (O.told outputs.new) (fault_text fault.now) }
{
    match fixed_line(fault) {
        Some(text) => put_line(outputs, text.as_bytes()),
        None => tell(alloc, outputs, fault),
    }
    status_of(fault)
}

/// Puts the line of a fault that names a file or a cause to standard error, where memory is left for it.
fn tell<O: Outputs>(alloc: Global, outputs: &mut O, fault: &Fault<'_>)
    ensures { TellsLine (O.told outputs.old) (O.told outputs.new) (fault_text fault.now) }
{
    let mut line = Vec::new(alloc);
    match fault_line(fault, &mut line) {
        Ok(()) => put_line(outputs, line.as_slice()),
        Err(_) => (),
    }
}

/// Puts a line to standard error, as far as the device takes it.
fn put_line<O: Outputs>(outputs: &mut O, line: &[u8])
    ensures { TellsLine (O.told outputs.old) (O.told outputs.new) line.now }
{
    match outputs.put("!", line) {
        Ok(()) => (),
        Err(PutFault::Failed) => (),
        Err(PutFault::Memory) => (),
    }
}
