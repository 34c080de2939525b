//! Outputs in memory.

ghost use Rattle.std.specs.Prelude.{◌≡◌, [], ◌∷◌, ◌++◌, List, ℕ, take, false, OnOk, OnErr};

use crate::Memory;
use crate::outputs::{Outputs, PutFault};
use std::alloc::Global;
use std::collections::BTreeMap;

/// Files in memory. The puts that were listed fail, and keep as many bytes as was listed with them.
#[derive(Drop)]
pub struct MemOutputs {
    files: BTreeMap<String, Vec<u8>>,
    fails: Vec<(u64, u64)>,
    calls: u64,
    faults: u64,
}

impl MemOutputs {
    ghost use Rattle.ss_outside.specs.Told.{KeepsOutputs};
    ghost use Rattle.ss_outside.specs.MemOutputs.{Gains, KeepsCalls, bytes_held, kept_in, mem_outputs_told};
    ghost use Rattle.ss_outside.specs.MemOutputs.{names_put_to, puts_listed, puts_made};

    /// No bytes under any name, and no put listed. It takes no memory.
    pub fn new(alloc: Global) -> MemOutputs
        ensures empty { (name : List ℕ) → bytes_held result name ≡ [] }
        ensures names { (name : List ℕ) → names_put_to result name ≡ false }
        ensures listed { puts_listed result ≡ [] }
        ensures calls { puts_made result ≡ 0 }
        ensures count { (mem_outputs_told result).faults ≡ 0 }
    {
        MemOutputs {
            files: BTreeMap::new(alloc),
            fails: Vec::new(alloc),
            calls: 0,
            faults: 0,
        }
    }

    /// The bytes of the name, none where nothing was put.
    pub fn bytes(&self, name: &str) -> &[u8]
        ensures { result.now ≡ bytes_held self.now name.now }
    {
        match self.files.get(name) {
            Some(bytes) => bytes.as_slice(),
            None => &[],
        }
    }

    /// Whether the name was put to, be it without a byte.
    pub fn was_put_to(&self, name: &str) -> bool
        ensures { result ≡ names_put_to self.now name.now }
    {
        self.files.contains_key(name)
    }

    /// The put of that number, from 1, is to fail after `kept` bytes, or after all where the text is shorter.
    /// Where a call is listed twice, the first entry counts.
    pub fn fail(&mut self, call: u64, kept: u64) -> Result<(), Memory>
        ensures added { OnOk result (puts_listed self.new ≡ puts_listed self.old ++ (call, kept) ∷ []) }
        ensures kept { OnErr result (puts_listed self.new ≡ puts_listed self.old) }
        ensures calls { puts_made self.new ≡ puts_made self.old }
        ensures told { mem_outputs_told self.new ≡ mem_outputs_told self.old }
    {
        self.fails.push((call, kept))?;
        Ok(())
    }

    /// Puts the text behind what the name has.
    fn append(&mut self, name: &str, text: &[u8]) -> Result<(), Memory>
        ensures added { OnOk result (Gains self.old self.new name.now text.now) }
        ensures kept { OnErr result (KeepsOutputs (mem_outputs_told self.old) (mem_outputs_told self.new)) }
        ensures calls { KeepsCalls self.old self.new }
    {
        match self.files.get_mut(name) {
            Some(bytes) => match bytes.extend_from_slice(text) {
                Ok(()) => Ok(()),
                Err(memory) => Err(memory),
            },
            None => match self.first(name, text) {
                Ok(()) => Ok(()),
                Err(memory) => Err(memory),
            },
        }
    }

    /// Makes the name, with this text.
    fn first(&mut self, name: &str, text: &[u8]) -> Result<(), Memory>
        requires { bytes_held self.old name.now ≡ [] }
        ensures added { OnOk result (Gains self.old self.new name.now text.now) }
        ensures kept { OnErr result (KeepsOutputs (mem_outputs_told self.old) (mem_outputs_told self.new)) }
        ensures calls { KeepsCalls self.old self.new }
    {
        let alloc = *self.fails.allocator();
        let bytes = text.to_vec(alloc)?;
        let name = String::from_str(alloc, name)?;
        self.files.insert(name, bytes)?;
        Ok(())
    }

    /// How many bytes the put of the present number keeps, where it is to fail.
    fn kept(&self) -> Option<u64>
        ensures { result ≡ kept_in (puts_listed self.now) (puts_made self.now) }
    {
        let entry = self.fails.iter().find(|entry| entry.0 == self.calls)?;
        Some(entry.1)
    }
}

impl Outputs for MemOutputs {
    ghost use Rattle.ss_outside.specs.Told.{Puts};
    ghost use Rattle.ss_outside.specs.MemOutputs.{PutsAsListed, mem_outputs_told};

    ghost told = { mem_outputs_told };

    fn faults(&self) -> u64 {
        self.faults
    }

    fn put(&mut self, name: &str, text: &[u8]) -> Result<(), PutFault>
        ensures puts { Puts (mem_outputs_told self.old) (mem_outputs_told self.new) name.now text.now result }
        ensures listed { PutsAsListed self.old self.new name.now text.now result }
    {
        self.calls = self.calls.saturating_add(1);
        match self.kept() {
            None => match self.append(name, text) {
                Ok(()) => Ok(()),
                Err(_) => Err(PutFault::Memory),
            },
            Some(kept) => match self.append(name, prefix(text, kept)) {
                Ok(()) => {
                    self.faults = self.faults.saturating_add(1);
                    Err(PutFault::Failed)
                }
                Err(_) => Err(PutFault::Memory),
            },
        }
    }
}

/// The first `count` bytes of the text, or all of them where it is shorter.
fn prefix(text: &[u8], count: u64) -> &[u8]
    ensures { result.now ≡ take count text.now }
{
    if count < text.len() as u64 {
        &text[..count as usize]
    } else {
        text
    }
}
