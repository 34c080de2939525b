//! Outputs that are real files, standard output and standard error.

ghost use Rattle.std.specs.Prelude.{◌≡◌, ◌↔◌, ℕ, List, false, is_ok, IfErr, bytes_eq, codes, position, string_bytes};
ghost use Rattle.std.specs.IoError.{error_kind};

use crate::outputs::{Outputs, PutFault};
use std::io::{self, ErrorKind, Write};
use std::rt::Files;
use std::{fs, str};

/// Real files, with standard output as `-` and standard error as `!`. A file is made empty at the first
/// put to it, and stays open. Nothing is buffered, so that a put answers for its own bytes. Nothing is told of
/// the bytes. Each error raises the count of faults.
#[derive(Drop)]
pub struct FileOutputs<'a, R: Files + Print + Eprint + AllocGlobal> {
    rt: &'a R,
    // Whether standard output and standard error were put to.
    output_used: bool,
    error_used: bool,
    // The names of the files that are open, and the files in the same order.
    names: Vec<String>,
    files: Vec<R::File>,
    faults: u64,
}

impl<'a, R: Files + Print + Eprint + AllocGlobal> FileOutputs<'a, R> {
    ghost use Rattle.ss_outside.specs.FileOutputs.{Writes, file_outputs_told, files_put_to};

    /// No file open, nothing put, and no fault. It takes no memory.
    pub fn new(rt: &'a R) -> FileOutputs<'a, R>
        ensures count { (file_outputs_told result).faults ≡ 0 }
        ensures names { (name : List ℕ) → files_put_to result name ≡ false }
    {
        FileOutputs {
            rt,
            output_used: false,
            error_used: false,
            names: Vec::new(rt.alloc()),
            files: Vec::new(rt.alloc()),
            faults: 0,
        }
    }

    /// Writes the text to what the name stands for.
    fn write(&mut self, name: &str, text: &[u8]) -> Result<(), PutFault>
        ensures { Writes (file_outputs_told self.old) (file_outputs_told self.new) name.now result }
    {
        match name {
            "-" => {
                self.output_used = true;
                written(self.rt.write_all(text))
            }
            "!" => {
                self.error_used = true;
                self.write_error(text)
            }
            _ => self.write_file(name, text),
        }
    }

    /// Standard error takes text alone: other bytes are refused whole.
    fn write_error(&self, text: &[u8]) -> Result<(), PutFault>
        ensures { IfErr result (λ fault. fault ≡ PutFault.Failed) }
    {
        match str::from_utf8(text) {
            Ok(text) => written(self.rt.eprint(text)),
            Err(_) => Err(PutFault::Failed),
        }
    }

    /// Writes to the open file of that name, which the first put opens and makes empty.
    fn write_file(&mut self, name: &str, text: &[u8]) -> Result<(), PutFault>
        requires output { bytes_eq name.now (codes "-") ≡ false }
        requires error { bytes_eq name.now (codes "!") ≡ false }
        ensures { Writes (file_outputs_told self.old) (file_outputs_told self.new) name.now result }
    {
        match place_of(self.names.as_slice(), name) {
            Some(place) => match self.write_open(place, text) {
                Ok(()) => Ok(()),
                Err(fault) => Err(fault),
            },
            None => self.write_first(name, text),
        }
    }

    /// Writes to the open file at this place.
    fn write_open(&mut self, place: usize, text: &[u8]) -> Result<(), PutFault>
        ensures told { file_outputs_told self.new ≡ file_outputs_told self.old }
        ensures failed { IfErr result (λ fault. fault ≡ PutFault.Failed) }
    {
        match self.files.get_mut(place) {
            Some(file) => written(file.write_all(text)),
            None => Err(PutFault::Failed),
        }
    }

    /// Makes the file empty, writes to it and keeps it open. What takes memory comes before the write, so
    /// that nothing was put where memory is wanting.
    fn write_first(&mut self, name: &str, text: &[u8]) -> Result<(), PutFault>
        requires output { bytes_eq name.now (codes "-") ≡ false }
        requires error { bytes_eq name.now (codes "!") ≡ false }
        ensures { Writes (file_outputs_told self.old) (file_outputs_told self.new) name.now result }
    {
        let kept_name = String::from_str(self.rt.alloc(), name)?;
        self.names.try_reserve(1)?;
        self.files.try_reserve(1)?;
        let mut file = fs::create(self.rt, name).map_err(fault_of)?;
        let outcome = written(file.write_all(text));
        self.names.push_reserved(kept_name);
        self.files.push_reserved(file);
        outcome
    }
}

impl<R: Files + Print + Eprint + AllocGlobal> Outputs for FileOutputs<'_, R> {
    ghost use Rattle.ss_outside.specs.Faults.{counted};
    ghost use Rattle.ss_outside.specs.Told.{Puts};
    ghost use Rattle.ss_outside.specs.FileOutputs.{file_outputs_told};

    ghost told = { file_outputs_told };

    fn faults(&self) -> u64 {
        self.faults
    }

    fn put(&mut self, name: &str, text: &[u8]) -> Result<(), PutFault>
        ensures puts { Puts (file_outputs_told self.old) (file_outputs_told self.new) name.now text.now result }
        ensures count { (file_outputs_told self.new).faults ≡ counted result (file_outputs_told self.old).faults }
    {
        match self.write(name, text) {
            Ok(()) => Ok(()),
            Err(PutFault::Failed) => {
                self.faults = self.faults.saturating_add(1);
                Err(PutFault::Failed)
            }
            Err(PutFault::Memory) => {
                self.faults = self.faults.saturating_add(1);
                Err(PutFault::Memory)
            }
        }
    }
}

/// The place of a name among those of the open files.
fn place_of(names: &[String], name: &str) -> Option<usize>
    ensures { result ≡ position (λ open_name. bytes_eq name.now (string_bytes open_name)) names.now }
{
    names.iter().position(|open| name == open.as_str())
}

/// What a write that was begun answers: whatever the error, a prefix may have been taken.
fn written(outcome: io::Result<()>) -> Result<(), PutFault>
    ensures answer { is_ok result ≡ is_ok outcome }
    ensures failed { IfErr result (λ fault. fault ≡ PutFault.Failed) }
{
    match outcome {
        Ok(()) => Ok(()),
        Err(_) => Err(PutFault::Failed),
    }
}

/// Why a file couldn't be opened: tells want of memory from the other errors.
fn fault_of(error: io::Error) -> PutFault
    ensures { error_kind error ≡ ErrorKind.OutOfMemory ↔ result ≡ PutFault.Memory }
{
    match error.kind() {
        ErrorKind::OutOfMemory => PutFault::Memory,
        _ => PutFault::Failed,
    }
}
