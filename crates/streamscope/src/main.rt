//! The program `streamscope`.
#![tactic(auto)]

ghost use Rattle.std.specs.IoError.{error_kind};
ghost use Rattle.std.specs.Prelude.{◌≡◌, ◌⊎◌, ◌↔◌, drop, map, string_bytes, IfErr, IfOk, OnErr};
ghost use Rattle.ss_outside.specs.Depot.{no_contents};
ghost use Rattle.ss_vault.specs.Calls.{HaveNoBytes};
ghost use Rattle.ss_words.specs.Words.{command_of};
ghost use Rattle.ss_command.specs.Ends.{Ends, TellsNoWords};
ghost use Rattle.ss_command.specs.Seen.{seen};
ghost use Rattle.std.specs.Vec.Iter.{into_iter_items};
ghost use Rattle.std.specs.Process.{exit_status};

#[cfg(test)]
mod tests;

use ss_command::{Outside, perform, refuse};
use ss_outside::{Depot, FileInputs, FileOutputs, Inputs, MemDepot, Outputs};
use ss_report::Fault;
use std::alloc::{AllocError, Global};
use std::env::Env;
use std::io::ErrorKind;
use std::process::ExitCode;
use std::{env, io};

fn main(rt: HostRuntime) -> ExitCode {
    let outside = Outside {
        inputs: FileInputs::new(&rt),
        outputs: FileOutputs::new(&rt),
        depot: MemDepot::new(rt.alloc()),
    };
    let (code, _) = perform_all(rt.alloc(), all_words(&rt), outside);
    code
}

/// Does what the words say, the program's name the first of them. Gives the code of the status, and what the command
/// was given.
fn perform_all<I: Inputs, O: Outputs, D: Depot>(
    alloc: Global,
    words: io::Result<Vec<String>>,
    mut outside: Outside<I, O, D>,
) -> (ExitCode, Outside<I, O, D>)
    requires depot { (D.told outside.depot).contents ≡ no_contents }
    requires outputs { HaveNoBytes (O.told outside.outputs) }
    ensures words { IfOk words (λ all. Ends (command_of (map string_bytes (drop 1 all.items)))
        (seen I.told O.told D.told outside) (seen I.told O.told D.told result.1) (exit_status result.0)) }
    ensures none { OnErr words
        (TellsNoWords (O.told outside.outputs) (O.told result.1.outputs) (exit_status result.0)) }
    ensures memory { IfErr words (λ error. error_kind error ≡ ErrorKind.OutOfMemory ↔ exit_status result.0 ≡ 10) }
    ensures depot { OnErr words (D.told result.1.depot ≡ D.told outside.depot) }
{
    match words {
        Ok(words) => {
            let done = perform(alloc, words_after_name(words.as_slice()), outside);
            (exit_code(done.status), done.outside)
        }
        Err(error) => {
            let status = refuse(alloc, &mut outside.outputs, &fault_of(&error));
            (exit_code(status), outside)
        }
    }
}

/// The words that the program was started with, its name the first.
fn all_words<R: Env + AllocGlobal>(rt: &R) -> io::Result<Vec<String>> {
    Ok(collected(rt.alloc(), env::args(rt)?)?)
}

/// The words that are left.
fn collected(alloc: Global, mut words: env::Args) -> Result<Vec<String>, AllocError>
    ensures { IfOk result (λ all. all.items ≡ into_iter_items words) }
{
    let mut all = Vec::new(alloc);
    while let Some(word) = words.next() {
        all.push(word)?;
    }
    Ok(all)
}

/// The words after the program's name.
fn words_after_name(words: &[String]) -> &[String]
    ensures { result.now ≡ drop 1 words.now }
{
    match words {
        [] => &[],
        [_, after @ ..] => after,
    }
}

/// The code with which the program ends at a status.
fn exit_code(status: u8) -> ExitCode
    ensures { exit_status result ≡ status }
{
    ExitCode::from(status)
}

/// Why there are no words: want of memory, or words that are no text.
fn fault_of(error: &io::Error) -> Fault<'static>
    ensures memory { error_kind error.now ≡ ErrorKind.OutOfMemory ↔ result ≡ Fault.Memory }
    ensures other { (result ≡ Fault.Usage) ⊎ (result ≡ Fault.Memory) }
{
    match error.kind() {
        ErrorKind::OutOfMemory => Fault::Memory,
        _ => Fault::Usage,
    }
}
