//! Inputs that are real files.

ghost use Rattle.std.specs.Prelude.{◌≡◌, ◌≤◌, ◌↔◌, length, IfOk, OnOk};
ghost use Rattle.std.specs.IoError.{error_kind};
ghost use Rattle.ss_outside.specs.FileInputs as spec;

use crate::inputs::{InputFault, Inputs};
use std::fs;
use std::io::{self, ErrorKind, Read};
use std::rt::Files;

/// The greatest size of a file that is read, in bytes.
const MOST_BYTES: usize = 67_108_864;

/// Real files. Nothing is told of their bytes. Each error raises the count of faults.
#[derive(Drop)]
pub struct FileInputs<'a, R: Files + AllocGlobal> {
    rt: &'a R,
    faults: u64,
}

impl<'a, R: Files + AllocGlobal> FileInputs<'a, R> {
    ghost use Rattle.ss_outside.specs.FileInputs.{file_inputs_told, most_bytes};

    /// Inputs without a fault.
    pub fn new(rt: &'a R) -> FileInputs<'a, R>
        ensures { (file_inputs_told result).faults ≡ 0 }
    {
        FileInputs { rt, faults: 0 }
    }

    /// The whole file. A file above the limit is read no further than one byte past it.
    fn whole(&self, name: &str) -> Result<Vec<u8>, InputFault>
        ensures { IfOk result (λ bytes. length bytes.items ≤ most_bytes) }
    {
        let mut bytes = Vec::new(self.rt.alloc());
        let file = fs::open(self.rt, name).map_err(fault_of)?;
        file.take(MOST_BYTES as u64 + 1)
            .read_to_end(&mut bytes)
            .map_err(fault_of)?;
        within_limit(bytes)
    }
}

impl<R: Files + AllocGlobal> Inputs for FileInputs<'_, R> {
    ghost use Rattle.ss_outside.specs.Told.{Reads, Releases};
    ghost use Rattle.ss_outside.specs.Faults.{counted};
    ghost use Rattle.ss_outside.specs.FileInputs.{file_inputs_told, most_bytes};

    ghost told = { file_inputs_told };

    fn faults(&self) -> u64 {
        self.faults
    }

    fn read(&mut self, name: &str, out: &mut Vec<u8>) -> Result<(), InputFault>
        ensures reads { Reads (file_inputs_told self.old) (file_inputs_told self.new) name.now
            out.old.items out.new.items result }
        ensures size { OnOk result (length out.new.items ≤ most_bytes) }
        ensures count { (file_inputs_told self.new).faults ≡ counted result (file_inputs_told self.old).faults }
    {
        match self.whole(name) {
            Ok(bytes) => {
                *out = bytes;
                Ok(())
            }
            Err(fault) => {
                self.faults = self.faults.saturating_add(1);
                Err(fault)
            }
        }
    }

    /// Does nothing: a real file keeps what it has.
    fn release(&mut self, name: &str, mark: u64)
        ensures releases { Releases (file_inputs_told self.old) (file_inputs_told self.new) name.now mark }
        ensures same { self.new ≡ self.old }
    {}
}

/// The bytes, or the fault of a file that is above the limit.
fn within_limit(bytes: Vec<u8>) -> Result<Vec<u8>, InputFault>
    ensures { result ≡ spec.within_limit bytes }
{
    if bytes.len() > MOST_BYTES {
        return Err(InputFault::Failed);
    }
    Ok(bytes)
}

/// Tells want of memory from the other errors.
fn fault_of(error: io::Error) -> InputFault
    ensures { error_kind error ≡ ErrorKind.OutOfMemory ↔ result ≡ InputFault.Memory }
{
    match error.kind() {
        ErrorKind::OutOfMemory => InputFault::Memory,
        _ => InputFault::Failed,
    }
}
