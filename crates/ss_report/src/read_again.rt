//! What is written of acts is read again.
ghost use Rattle.ss_report.specs.ReadAgain.{ActIsReadAgain, ActsAreReadAgain, JobsHaveNames, TracesAreReadAgain};

/// The text of an act, read as a schedule, gives the act again, and the texts of several, each before a newline, give
/// all of them: of acts of vertices and replicas that are there, where the names of vertices are words without a colon
/// and differ. The names of each job are such. So what stands before the first colon of each line of a trace of a job,
/// read as a schedule of that job, gives the trace's acts again.
pub fn acts_are_read_again()
    ensures one { ActIsReadAgain }
    ensures all { ActsAreReadAgain }
    ensures names { JobsHaveNames }
    ensures traces { TracesAreReadAgain }
{}
