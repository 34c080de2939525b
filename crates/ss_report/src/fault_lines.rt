//! The line of each fault.
ghost use Rattle.std.specs.Prelude.{◌≡◌, ◌++◌, OnOk, OnErr, IfSome, is_some};
ghost use Rattle.ss_report.specs.FaultText.{damaged_text, events_text, fault_text, full_text};
ghost use Rattle.ss_report.specs.FaultText.{is_fixed, job_head, job_text};
ghost use Rattle.ss_report.specs.FaultText.{script_text};
ghost use Rattle.ss_report.specs.Joined.{Extends};
ghost use Rattle.ss_report.specs.WhyText.{event_why, job_why, script_why};

use crate::Memory;
use crate::fault::Fault;
use crate::put::put;
use crate::why::{put_event_why, put_job_why, put_script_why};
use itoa::Buffer;
use ss_events::EventFault;
use ss_fail::ScriptFault;
use ss_job::JobFault;

const USAGE: &str =
    "usage: streamscope check|plain|play|run|gen SUBJECT [--workers N] [--failures F] [--schedule F] [--trace F]\n";

const STORE_FAULT: &str = "streamscope: store fault\n";

const OUTPUT_FAULT: &str = "streamscope: output fault\n";

const OUT_OF_MEMORY: &str = "streamscope: out of memory\n";

/// The line of a fault that names nothing, with its newline. It takes no memory.
pub fn fixed_line(fault: &Fault<'_>) -> Option<&'static str>
    ensures text { IfSome result (λ text. text.now ≡ fault_text fault.now) }
    ensures fixed { is_some result ≡ is_fixed fault.now }
{
    match fault {
        Fault::Usage => Some(USAGE),
        Fault::Store => Some(STORE_FAULT),
        Fault::Output => Some(OUTPUT_FAULT),
        Fault::Memory => Some(OUT_OF_MEMORY),
        Fault::Job(_) | Fault::Events { .. } | Fault::Inputs { .. } => None,
        Fault::Script { .. } | Fault::Full { .. } | Fault::Damaged { .. } => None,
    }
}

/// Appends the line of a fault, with its newline, or nothing where memory runs out.
pub fn fault_line(fault: &Fault<'_>, out: &mut Vec<u8>) -> Result<(), Memory>
    ensures line { OnOk result (out.new.items ≡ out.old.items ++ fault_text fault.now) }
    ensures kept { OnErr result (out.new.items ≡ out.old.items) }
{
    let length = out.len();
    match write_fault(fault, out) {
        Ok(()) => Ok(()),
        Err(memory) => {
            out.truncate(length);
            Err(memory)
        }
    }
}

/// Appends the line of a fault, or a part of it where memory runs out.
fn write_fault(fault: &Fault<'_>, out: &mut Vec<u8>) -> Result<(), Memory>
    ensures line { OnOk result (out.new.items ≡ out.old.items ++ fault_text fault.now) }
    ensures part { OnErr result (Extends out.old.items out.new.items) }
{
    match fault {
        Fault::Usage => put(out, &[USAGE.as_bytes()]),
        Fault::Job(fault) => write_job(fault, out),
        Fault::Events { file, fault } => write_events(file, fault, out),
        Fault::Inputs { file } => put(out, &[b"streamscope: cannot read ", file.as_bytes(), b"\n"]),
        Fault::Store => put(out, &[STORE_FAULT.as_bytes()]),
        Fault::Output => put(out, &[OUTPUT_FAULT.as_bytes()]),
        Fault::Script { file, fault } => write_script(file, fault, out),
        Fault::Full { name, most } => write_full(name, *most, out),
        Fault::Damaged { name, n } => write_damaged(name, *n, out),
        Fault::Memory => put(out, &[OUT_OF_MEMORY.as_bytes()]),
    }
}

/// Appends the line of a job's fault, or a part of it where memory runs out.
fn write_job(fault: &JobFault, out: &mut Vec<u8>) -> Result<(), Memory>
    ensures line { OnOk result (out.new.items ≡ out.old.items ++ job_text fault.now.vertex (job_why fault.now.why)) }
    ensures part { OnErr result (Extends out.old.items out.new.items) }
{
    put_job_head(fault.vertex, out)?;
    put_job_why(&fault.why, out)?;
    put(out, &[b"\n"])
}

/// Appends what stands before the cause of a job's fault, or nothing.
fn put_job_head(vertex: Option<u32>, out: &mut Vec<u8>) -> Result<(), Memory>
    ensures text { OnOk result (out.new.items ≡ out.old.items ++ job_head vertex) }
    ensures kept { OnErr result (out.new.items ≡ out.old.items) }
{
    match vertex {
        None => put(out, &[b"streamscope: job: "]),
        Some(vertex) => put(
            out,
            &[
                b"streamscope: job: vertex ",
                Buffer::new().format(vertex).as_bytes(),
                b": ",
            ],
        ),
    }
}

/// Appends the line of a row that is refused, or a part of it where memory runs out.
fn write_events(file: &str, fault: &EventFault, out: &mut Vec<u8>) -> Result<(), Memory>
    ensures line { OnOk result (out.new.items
        ≡ out.old.items ++ events_text file.now fault.now.row (event_why fault.now.why)) }
    ensures part { OnErr result (Extends out.old.items out.new.items) }
{
    put(
        out,
        &[
            b"streamscope: events ",
            file.as_bytes(),
            b": row ",
            Buffer::new().format(fault.row).as_bytes(),
            b": ",
        ],
    )?;
    put_event_why(&fault.why, out)?;
    put(out, &[b"\n"])
}

/// Appends the line of a script that is refused, or a part of it where memory runs out.
fn write_script(file: &str, fault: &ScriptFault, out: &mut Vec<u8>) -> Result<(), Memory>
    ensures line { OnOk result (out.new.items
        ≡ out.old.items ++ script_text file.now fault.now.line (script_why fault.now.why)) }
    ensures part { OnErr result (Extends out.old.items out.new.items) }
{
    put(
        out,
        &[
            b"streamscope: script ",
            file.as_bytes(),
            b": line ",
            Buffer::new().format(fault.line).as_bytes(),
            b": ",
        ],
    )?;
    put_script_why(&fault.why, out)?;
    put(out, &[b"\n"])
}

/// Appends the line of a stream that is too long, or nothing.
fn write_full(name: &str, most: u64, out: &mut Vec<u8>) -> Result<(), Memory>
    ensures line { OnOk result (out.new.items ≡ out.old.items ++ full_text name.now most) }
    ensures kept { OnErr result (out.new.items ≡ out.old.items) }
{
    put(
        out,
        &[
            b"streamscope: stream ",
            name.as_bytes(),
            b" passes ",
            Buffer::new().format(most).as_bytes(),
            b" elements\n",
        ],
    )
}

/// Appends the line of stored bytes that are damaged, or nothing.
fn write_damaged(name: &str, n: u64, out: &mut Vec<u8>) -> Result<(), Memory>
    ensures line { OnOk result (out.new.items ≡ out.old.items ++ damaged_text name.now n) }
    ensures kept { OnErr result (out.new.items ≡ out.old.items) }
{
    put(
        out,
        &[
            b"streamscope: stored bytes damaged: ",
            name.as_bytes(),
            b" ",
            Buffer::new().format(n).as_bytes(),
            b"\n",
        ],
    )
}
