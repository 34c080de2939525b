//! Inputs in memory.

ghost use Rattle.std.specs.Prelude.{◌≡◌, [], ◌∷◌, ◌++◌, if◌then◌else◌, List, ℕ, OnOk, OnErr};

use crate::Memory;
use crate::inputs::{InputFault, Inputs};
use std::alloc::Global;
use std::collections::BTreeMap;

/// A file in memory.
#[derive(Drop)]
struct MemFile {
    bytes: Vec<u8>,
    /// The released mark.
    mark: u64,
    /// How many reads of it failed. The count stays at `u64::MAX`.
    failures: u64,
}

/// Files in memory. A read of a name that isn't held fails, and so do the reads that were listed.
#[derive(Drop)]
pub struct MemInputs {
    files: BTreeMap<String, MemFile>,
    fails: Vec<u64>,
    calls: u64,
    // How many reads of names that aren't held failed.
    missed: u64,
    faults: u64,
}

impl MemInputs {
    ghost use Rattle.ss_outside.specs.Faults.{next_count};
    ghost use Rattle.ss_outside.specs.Told.{changed_at, missed_after, missing, with_failure};
    ghost use Rattle.ss_outside.specs.MemInputs.{Holds, KeepsCalls, mark_of, mem_file, mem_inputs_told};
    ghost use Rattle.ss_outside.specs.MemInputs.{reads_listed, reads_made};

    /// No file, and no read listed. It takes no memory.
    pub fn new(alloc: Global) -> MemInputs
        ensures empty { (name : List ℕ) → mem_file result name ≡ missing }
        ensures listed { reads_listed result ≡ [] }
        ensures calls { reads_made result ≡ 0 }
        ensures count { (mem_inputs_told result).faults ≡ 0 }
        ensures missed { (mem_inputs_told result).missed ≡ 0 }
    {
        MemInputs {
            files: BTreeMap::new(alloc),
            fails: Vec::new(alloc),
            calls: 0,
            missed: 0,
            faults: 0,
        }
    }

    /// The name then holds these bytes, and nothing of them is released.
    pub fn add(&mut self, name: &str, bytes: &[u8]) -> Result<(), Memory>
        ensures added { OnOk result (Holds self.old self.new name.now bytes.now) }
        ensures kept { OnErr result ((mem_inputs_told self.new).file ≡ (mem_inputs_told self.old).file) }
        ensures calls { KeepsCalls self.old self.new }
    {
        let alloc = *self.fails.allocator();
        let file = MemFile {
            bytes: bytes.to_vec(alloc)?,
            mark: 0,
            failures: 0,
        };
        let name = String::from_str(alloc, name)?;
        self.files.insert(name, file)?;
        Ok(())
    }

    /// The read of that number, from 1, is to fail.
    pub fn fail(&mut self, call: u64) -> Result<(), Memory>
        ensures added { OnOk result (reads_listed self.new ≡ reads_listed self.old ++ call ∷ []) }
        ensures kept { OnErr result (reads_listed self.new ≡ reads_listed self.old) }
        ensures calls { reads_made self.new ≡ reads_made self.old }
        ensures told { mem_inputs_told self.new ≡ mem_inputs_told self.old }
    {
        self.fails.push(call)?;
        Ok(())
    }

    /// The released mark of the name, or None where it isn't held.
    pub fn mark(&self, name: &str) -> Option<u64>
        ensures { result ≡ mark_of self.now name.now }
    {
        match self.files.get(name) {
            Some(file) => Some(file.mark),
            None => None,
        }
    }

    /// Counts a read of this name that failed.
    fn count_failure(&mut self, name: &str)
        ensures files { (other : List ℕ) →
            mem_file self.new other ≡ changed_at name.now with_failure (mem_file self.old) other }
        ensures missed { (mem_inputs_told self.new).missed
            ≡ missed_after (mem_file self.old name.now) (mem_inputs_told self.old).missed }
        ensures count { (mem_inputs_told self.new).faults ≡ next_count (mem_inputs_told self.old).faults }
        ensures made { reads_made self.new ≡ reads_made self.old }
        ensures listed { reads_listed self.new ≡ reads_listed self.old }
    {
        self.faults = self.faults.saturating_add(1);
        match self.files.get_mut(name) {
            Some(file) => file.failures = file.failures.saturating_add(1),
            None => self.missed = self.missed.saturating_add(1),
        }
    }
}

impl Inputs for MemInputs {
    ghost use Rattle.ss_outside.specs.Told.{Reads, Releases};
    ghost use Rattle.ss_outside.specs.MemInputs.{KeepsCalls, ReadsAsListed, mem_inputs_told};

    ghost told = { mem_inputs_told };

    fn faults(&self) -> u64 {
        self.faults
    }

    fn read(&mut self, name: &str, out: &mut Vec<u8>) -> Result<(), InputFault>
        ensures reads { Reads (mem_inputs_told self.old) (mem_inputs_told self.new) name.now
            out.old.items out.new.items result }
        ensures listed { ReadsAsListed self.old self.new name.now result }
    {
        self.calls = self.calls.saturating_add(1);
        let listed = self.fails.contains(&self.calls);
        match self.files.get(name) {
            Some(file) if !listed => {
                *out = file.bytes.to_vec(*self.fails.allocator())?;
                Ok(())
            }
            _ => {
                self.count_failure(name);
                Err(InputFault::Failed)
            }
        }
    }

    fn release(&mut self, name: &str, mark: u64)
        ensures releases { Releases (mem_inputs_told self.old) (mem_inputs_told self.new) name.now mark }
        ensures calls { KeepsCalls self.old self.new }
    {
        match self.files.get_mut(name) {
            Some(file) => file.mark = file.mark.max(mark),
            None => (),
        }
    }
}
