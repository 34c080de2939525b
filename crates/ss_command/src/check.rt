ghost use Rattle.std.specs.Prelude.{◌≡◌, ◌<◌, ◌++◌, IfOk, OnOk, length};
ghost use Rattle.ss_command.specs.Output.{check_puts, check_text, line_of_vertex};
ghost use Rattle.ss_command.specs.Puts.{Wrote};

use ss_job::Job;
use ss_outside::{Outputs, PutFault};
use ss_report::{StateRow, state_line};
use std::alloc::{AllocError, Global};

/// Puts the lines of a job to standard output.
pub(crate) fn check<O: Outputs>(alloc: Global, outputs: &mut O, job: &Job) -> Result<(), PutFault>
    ensures { Wrote (O.told outputs.old) (O.told outputs.new) (check_puts job.now) result }
{
    let Ok(text) = lines_of(alloc, job) else {
        return Err(PutFault::Memory);
    };
    match outputs.put("-", text.as_slice()) {
        Ok(()) => Ok(()),
        Err(fault) => Err(fault),
    }
}

/// A job's lines: one for each vertex, and one with their number.
fn lines_of(alloc: Global, job: &Job) -> Result<Vec<u8>, AllocError>
    ensures { IfOk result (λ text. text.items ≡ check_text job.now) }
{
    let mut text = Vec::new(alloc);
    let count = job.graph().count();
    for v in 0..count {
        put_vertex(&mut text, job, v)?;
    }
    let row = StateRow::Checked {
        count: count as u64,
    };
    state_line(&row, job.roles(), &mut text)?;
    Ok(text)
}

/// Appends the line of a vertex.
fn put_vertex(text: &mut Vec<u8>, job: &Job, v: u32) -> Result<(), AllocError>
    requires { v < length job.now.vertices }
    ensures { OnOk result (text.new.items ≡ text.old.items ++ line_of_vertex job.now v) }
{
    let node = job.graph().node(v);
    let inputs = node.inputs;
    let row = StateRow::Vertex {
        v,
        op: job.op(v),
        inputs,
        width: node.width,
    };
    match state_line(&row, job.roles(), text) {
        Ok(()) => Ok(()),
        Err(error) => Err(error),
    }
}
