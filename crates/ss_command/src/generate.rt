ghost use Rattle.std.specs.Prelude.{◌≡◌, ◌+◌, ◌%◌, ◌^◌, ℕ, List, [], ◌∷◌, IfOk, codes};
ghost use Rattle.ss_gen.specs.Events.{events_text};
ghost use Rattle.ss_gen.specs.Job.{job_text};
ghost use Rattle.ss_report.specs.StateText.{state_text};
ghost use Rattle.ss_report.specs.declared.state_row.StateRow.TheVariants as row;
ghost use Rattle.ss_command.specs.Output.{made_puts};
ghost use Rattle.ss_command.specs.Puts.{Wrote, put_of};

use ss_gen::{gen_events, gen_job};
use ss_outside::{Outputs, PutFault};
use ss_report::{StateRow, state_line};
use std::alloc::{AllocError, Global};

/// Puts a job and its two event files, which are drawn from this seed and from the next, and a line that says so.
pub(crate) fn generate<O: Outputs>(
    alloc: Global,
    outputs: &mut O,
    seed: u64,
) -> Result<(), PutFault>
    ensures { Wrote (O.told outputs.old) (O.told outputs.new) (made_puts seed) result }
{
    match put_made(outputs, "gen-job.toml", job_bytes(alloc)) {
        Ok(()) => (),
        Err(fault) => return Err(fault),
    }
    put_events(alloc, outputs, seed)
}

/// Puts the two event files, and the line.
fn put_events<O: Outputs>(alloc: Global, outputs: &mut O, seed: u64) -> Result<(), PutFault>
    ensures { Wrote (O.told outputs.old) (O.told outputs.new)
        (put_of (codes "gen-a.csv") (events_text seed)
        ∷ put_of (codes "gen-b.csv") (events_text ((seed + 1) % 2 ^ 64))
        ∷ put_of (codes "-") (state_text [] row.Written) ∷ []) result }
{
    match put_made(outputs, "gen-a.csv", events_bytes(alloc, seed)) {
        Ok(()) => (),
        Err(fault) => return Err(fault),
    }
    put_rest(alloc, outputs, seed.wrapping_add(1))
}

/// Puts the event file that is drawn from this seed as the second, and the line.
fn put_rest<O: Outputs>(alloc: Global, outputs: &mut O, seed: u64) -> Result<(), PutFault>
    ensures { Wrote (O.told outputs.old) (O.told outputs.new)
        (put_of (codes "gen-b.csv") (events_text seed)
        ∷ put_of (codes "-") (state_text [] row.Written) ∷ []) result }
{
    match put_made(outputs, "gen-b.csv", events_bytes(alloc, seed)) {
        Ok(()) => (),
        Err(fault) => return Err(fault),
    }
    put_made(outputs, "-", written_bytes(alloc))
}

/// Puts a text to a name, where there was memory for it.
fn put_made<O: Outputs>(
    outputs: &mut O,
    name: &str,
    made: Result<Vec<u8>, AllocError>,
) -> Result<(), PutFault>
    ensures { (text : List ℕ) → IfOk made (λ bytes. bytes.items ≡ text)
        → Wrote (O.told outputs.old) (O.told outputs.new) (put_of name.now text ∷ []) result }
{
    let Ok(text) = made else {
        return Err(PutFault::Memory);
    };
    outputs.put(name, text.as_slice())
}

fn job_bytes(alloc: Global) -> Result<Vec<u8>, AllocError>
    ensures { IfOk result (λ text. text.items ≡ job_text) }
{
    let mut text = Vec::new(alloc);
    gen_job(&mut text)?;
    Ok(text)
}

fn events_bytes(alloc: Global, seed: u64) -> Result<Vec<u8>, AllocError>
    ensures { IfOk result (λ text. text.items ≡ events_text seed) }
{
    let mut text = Vec::new(alloc);
    gen_events(seed, &mut text)?;
    Ok(text)
}

fn written_bytes(alloc: Global) -> Result<Vec<u8>, AllocError>
    ensures { IfOk result (λ text. text.items ≡ state_text [] row.Written) }
{
    let mut text = Vec::new(alloc);
    state_line(&StateRow::Written, &[], &mut text)?;
    Ok(text)
}
