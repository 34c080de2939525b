//! The program's status, over files in memory.
ghost use Rattle.std.specs.Prelude.{IfOk};
ghost use Rattle.ss_outside.specs.MemOutputs.{mem_outputs_told};
ghost use Rattle.ss_vault.specs.Calls.{HaveNoBytes};

use ss_command::Outside;
use ss_outside::{MemDepot, MemInputs, MemOutputs};
use std::alloc::Global;
use std::io::{self, ErrorKind};
use std::process::ExitCode;
use std::test::Fail;

/// A source whose rows go to one sink, and the file of its events.
const FILES: [(&str, &[u8]); 2] = [
    (
        "job.toml",
        b"[[vertex]]
name = 'in'
op = 'source'
file = 'in.csv'
[[vertex]]
name = 'out'
op = 'sink'
inputs = ['in']
file = 'out.csv'
",
    ),
    ("in.csv", b"event,5,9,k,3,0\ncti,10\n"),
];

fn inputs_of(alloc: Global, files: &[(&str, &[u8])]) -> Result<MemInputs, Fail> {
    let mut inputs = MemInputs::new(alloc);
    for (name, bytes) in files {
        inputs.add(name, bytes)?;
    }
    Ok(inputs)
}

fn outputs_of(alloc: Global, puts: &[(u64, u64)]) -> Result<MemOutputs, Fail>
    ensures { IfOk result (λ outputs. HaveNoBytes (mem_outputs_told outputs)) }
{
    let mut outputs = MemOutputs::new(alloc);
    for (call, kept) in puts {
        outputs.fail(*call, *kept)?;
    }
    Ok(outputs)
}

/// The words, each as a text of its own.
fn owned(alloc: Global, words: &[&str]) -> Result<Vec<String>, Fail> {
    let mut owned = Vec::new(alloc);
    for word in words {
        owned.push(String::from_str(alloc, word)?)?;
    }
    Ok(owned)
}

/// The code with which the program ends, where it is started with these words over these files.
fn code_of(
    alloc: Global,
    words: io::Result<Vec<String>>,
    files: &[(&str, &[u8])],
    puts: &[(u64, u64)],
) -> Result<ExitCode, Fail> {
    let outside = Outside {
        inputs: inputs_of(alloc, files)?,
        outputs: outputs_of(alloc, puts)?,
        depot: MemDepot::new(alloc),
    };
    let (code, _) = crate::perform_all(alloc, words, outside);
    Ok(code)
}

/// The name of the program is the first word, and none of the command's.
#[test]
fn the_program_ends_with_the_status_of_its_command(rt: HostRuntime) -> Result<(), Fail> {
    let alloc = rt.alloc();
    let cases: [(&[&str], &[(&str, &[u8])], &[(u64, u64)], u8); 8] = [
        (&["streamscope", "run", "job.toml"], &FILES, &[], 0),
        (&["streamscope", "check", "job.toml"], &FILES, &[], 0),
        (&["run", "job.toml"], &FILES, &[], 2),
        (&["streamscope", "run"], &FILES, &[], 2),
        (&["streamscope", "run", "job.toml", "x"], &FILES, &[], 2),
        (&[], &FILES, &[], 2),
        (&["streamscope", "run", "job.toml"], &[], &[], 5),
        (&["streamscope", "run", "job.toml"], &FILES, &[(2, 1)], 7),
    ];
    for (words, files, puts, status) in cases {
        let code = code_of(alloc, Ok(owned(alloc, words)?), files, puts)?;
        assert!(rt; code == ExitCode::from(status), "status {status}");
    }
    Ok(())
}

/// Words that are no text are no command, and there may be no memory for them.
#[test]
fn words_that_could_not_be_had_have_their_status(rt: HostRuntime) -> Result<(), Fail> {
    let alloc = rt.alloc();
    for (kind, status) in [(ErrorKind::InvalidData, 2), (ErrorKind::OutOfMemory, 10)] {
        let code = code_of(alloc, Err(io::Error::from(kind)), &FILES, &[])?;
        assert!(rt; code == ExitCode::from(status), "status {status}");
    }
    Ok(())
}
