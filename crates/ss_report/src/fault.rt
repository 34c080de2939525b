ghost use Rattle.std.specs.Prelude.{◌≡◌};
ghost use Rattle.ss_report.specs.Status.{status_of};

use ss_events::EventFault;
use ss_fail::ScriptFault;
use ss_job::JobFault;

/// What ended a command before its work was done.
#[derive(Clone, Copy, Debug)]
pub enum Fault<'a> {
    /// The words are no command.
    Usage,
    /// The bytes of the job file say no job.
    Job(JobFault),
    /// The bytes of a source's file are no events.
    Events {
        /// The file's name.
        file: &'a str,
        /// The first row that is refused.
        fault: EventFault,
    },
    /// A file could not be read.
    Inputs {
        /// The file's name.
        file: &'a str,
    },
    /// The store failed.
    Store,
    /// An output failed.
    Output,
    /// The bytes of a schedule or a failure file are none.
    Script {
        /// The file's name.
        file: &'a str,
        /// The first line at fault.
        fault: ScriptFault,
    },
    /// A stream has more elements than it may.
    Full {
        /// The name of its vertex.
        name: &'a str,
        /// How many it may have.
        most: u64,
    },
    /// Memory ran out.
    Memory,
    /// The store gave bytes that aren't what was stored.
    Damaged {
        /// The name of the vertex whose bytes they are.
        name: &'a str,
        /// The number of the element or of the snapshot.
        n: u64,
    },
}

/// The status with which the program ends at a fault.
pub fn status_of(fault: &Fault<'_>) -> u8
    ensures { result ≡ status_of fault.now }
{
    match fault {
        Fault::Usage => 2,
        Fault::Job(_) => 3,
        Fault::Events { .. } => 4,
        Fault::Inputs { .. } => 5,
        Fault::Store => 6,
        Fault::Output => 7,
        Fault::Script { .. } => 8,
        Fault::Full { .. } => 9,
        Fault::Memory => 10,
        Fault::Damaged { .. } => 11,
    }
}
