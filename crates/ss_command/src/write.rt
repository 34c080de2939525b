ghost use Rattle.std.specs.Prelude.{◌<◌, length};
ghost use Rattle.ss_plan.specs.Plan.{lists_of};
ghost use Rattle.ss_command.specs.Output.{all_sink_puts, sink_puts};
ghost use Rattle.ss_command.specs.Computed.{list_at};
ghost use Rattle.ss_command.specs.Puts.{Wrote, lines_to};

use crate::sinks::{list_at, sink_file};
use ss_elem::{Element, LineBuf, line};
use ss_job::Job;
use ss_outside::{Outputs, PutFault};

/// Puts the lines of each sink of a job to its file, in order. `streams` has what each sink takes.
pub(crate) fn write_sinks<O: Outputs>(
    outputs: &mut O,
    job: &Job,
    streams: &[Vec<Element>],
) -> Result<(), PutFault>
    ensures { Wrote (O.told outputs.old) (O.told outputs.new)
        (all_sink_puts job.now (list_at (lists_of streams.now))) result }
{
    for v in 0..job.graph().count() {
        match write_sink(outputs, job, streams, v) {
            Ok(()) => (),
            Err(fault) => return Err(fault),
        }
    }
    Ok(())
}

/// Puts the lines of a vertex, if it is a sink, to its file.
fn write_sink<O: Outputs>(
    outputs: &mut O,
    job: &Job,
    streams: &[Vec<Element>],
    v: u32,
) -> Result<(), PutFault>
    requires { v < length job.now.vertices }
    ensures { Wrote (O.told outputs.old) (O.told outputs.new)
        (sink_puts job.now (list_at (lists_of streams.now)) v) result }
{
    match sink_file(job, v) {
        Some(file) => match write_lines(outputs, file, list_at(streams, v)) {
            Ok(()) => Ok(()),
            Err(fault) => Err(fault),
        },
        None => Ok(()),
    }
}

/// Puts a list's lines to a file, each element's by a put of its own.
fn write_lines<O: Outputs>(outputs: &mut O, file: &str, list: &[Element]) -> Result<(), PutFault>
    ensures { Wrote (O.told outputs.old) (O.told outputs.new) (lines_to file.now list.now) result }
{
    let mut buffer = LineBuf::new();
    for element in list {
        line(element, &mut buffer);
        match outputs.put(file, buffer.as_slice()) {
            Ok(()) => (),
            Err(fault) => return Err(fault),
        }
    }
    Ok(())
}
