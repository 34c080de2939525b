/// How a job is run, besides its file.
#[derive(Clone, Copy, Debug, PartialEq, Eq)]
pub struct RunOptions<'a> {
    /// The file that lists failures.
    pub failures: Option<&'a str>,
    /// The name that the trace is put to.
    pub trace: Option<&'a str>,
    /// How many workers run the job, 1 to 8.
    pub workers: Option<u32>,
}

/// A command, as the words after the program's name give it. Names of files have 1 to 200 bytes.
#[derive(Clone, Copy, Debug, PartialEq, Eq)]
pub enum Command<'a> {
    /// Shows the job, and does none of its work.
    Check {
        /// The job file.
        job: &'a str,
    },
    /// Writes what each sink takes, computed as a whole.
    Plain {
        /// The job file.
        job: &'a str,
    },
    /// Does the job's work.
    Run {
        /// The job file.
        job: &'a str,
        /// How.
        run: RunOptions<'a>,
    },
    /// Makes the acts of a schedule on the job, one after the other.
    Play {
        /// The job file.
        job: &'a str,
        /// The schedule's file.
        schedule: &'a str,
    },
    /// Makes a job with large event files.
    Gen {
        /// What the events are drawn from.
        seed: u64,
    },
}
