//! Which calls of a depot in memory are to fail, or to answer short.

ghost use Rattle.std.specs.Prelude.{◌≡◌, [], ◌∷◌, ◌++◌, ◌-◌, ◌≤◌, ◌&&◌, false, length, take, is_ok, OnOk, OnErr};
ghost use Rattle.ss_outside.specs.DepotCalls.{is_in};

use crate::Memory;
use crate::depot::DepotFault;
use std::alloc::Global;

/// A kind of call of a depot.
#[derive(Clone, Copy, Debug, PartialEq, Eq)]
pub enum DepotCall {
    Append,
    Fetch,
    Cut,
    Keep,
    Load,
    DropBelow,
}

impl DepotCall {
    ghost use Rattle.ss_outside.specs.DepotCalls.{call_number};

    /// The place of the kind among all.
    fn number(self) -> usize
        ensures value { result ≡ call_number self }
    {
        match self {
            DepotCall::Append => 0,
            DepotCall::Fetch => 1,
            DepotCall::Cut => 2,
            DepotCall::Keep => 3,
            DepotCall::Load => 4,
            DepotCall::DropBelow => 5,
        }
    }
}

/// What is listed, how many calls were made, and the counts of those that failed and that answered short.
#[derive(Drop)]
pub(crate) struct DepotCalls {
    // Each with its number among the calls of its kind, from 1.
    fails: Vec<(DepotCall, u64)>,
    damaged: Vec<(DepotCall, u64)>,
    // By kind. Each count stays at `u64::MAX`.
    made: [u64; 6],
    faults: u64,
    shorts: u64,
}

impl DepotCalls {
    ghost use Rattle.ss_outside.specs.DepotCalls.{MakesCall, IsFresh, calls_damaged, calls_listed, damages_next};
    ghost use Rattle.ss_outside.specs.DepotCalls.{depot_failed, given_next, gives_bytes};

    /// No call listed and none made. It takes no memory.
    pub(crate) fn new(alloc: Global) -> DepotCalls
        ensures { IsFresh result }
    {
        DepotCalls {
            fails: Vec::new(alloc),
            damaged: Vec::new(alloc),
            made: [0; 6],
            faults: 0,
            shorts: 0,
        }
    }

    /// The allocator of the lists.
    pub(crate) fn allocator(&self) -> Global {
        *self.fails.allocator()
    }

    /// How many calls failed.
    pub(crate) fn faults(&self) -> u64
        ensures { result ≡ self.now.faults }
    {
        self.faults
    }

    /// How many answers were short.
    pub(crate) fn shorts(&self) -> u64
        ensures { result ≡ self.now.shorts }
    {
        self.shorts
    }

    /// Lists the call as one that is to fail.
    pub(crate) fn fail(&mut self, which: DepotCall, number: u64) -> Result<(), Memory>
        ensures added { OnOk result (calls_listed self.new ≡ calls_listed self.old ++ (which, number) ∷ []) }
        ensures kept { OnErr result (calls_listed self.new ≡ calls_listed self.old) }
        ensures others { self.new ≡ record self.old { fails = self.new.fails } }
    {
        self.fails.push((which, number))?;
        Ok(())
    }

    /// Lists the call as one whose answer is to be short.
    pub(crate) fn damage(&mut self, which: DepotCall, number: u64) -> Result<(), Memory>
        ensures added { OnOk result (calls_damaged self.new ≡ calls_damaged self.old ++ (which, number) ∷ []) }
        ensures kept { OnErr result (calls_damaged self.new ≡ calls_damaged self.old) }
        ensures others { self.new ≡ record self.old { damaged = self.new.damaged } }
    {
        self.damaged.push((which, number))?;
        Ok(())
    }

    /// Makes one more call of that kind, and says whether it is to fail.
    pub(crate) fn begin(&mut self, which: DepotCall) -> bool
        ensures calls { MakesCall self.old self.new which result false }
        ensures rising { self.old.faults ≤ self.new.faults }
    {
        let kind = which.number();
        self.made[kind] = self.made[kind].saturating_add(1);
        let fails = has_call(&self.fails, which, self.made[kind]);
        if fails {
            self.faults = self.faults.saturating_add(1);
        }
        fails
    }

    /// Makes one more call of that kind, which replaces `out` by the bytes, or fails where it is listed.
    pub(crate) fn give(
        &mut self,
        which: DepotCall,
        bytes: &[u8],
        out: &mut Vec<u8>,
    ) -> Result<(), DepotFault>
        ensures calls { let was_short = is_ok result && damages_next self.old which in
            MakesCall self.old self.new which (depot_failed result) was_short }
        ensures rising_faults { self.old.faults ≤ self.new.faults }
        ensures rising_shorts { self.old.shorts ≤ self.new.shorts }
        ensures given { OnOk result (out.new.items ≡ given_next self.old which bytes.now) }
        ensures kept { OnErr result (out.new.items ≡ out.old.items) }
    {
        if self.begin(which) {
            return Err(DepotFault::Failed);
        }
        if has_call(&self.damaged, which, self.made[which.number()]) {
            replace(out, without_last(bytes))?;
            self.shorts = self.shorts.saturating_add(1);
        } else {
            replace(out, bytes)?;
        }
        Ok(())
    }
}

/// Whether the list has the call of that kind and number.
fn has_call(calls: &[(DepotCall, u64)], which: DepotCall, number: u64) -> bool
    ensures { result ≡ is_in calls.now which number }
{
    calls.iter().any(|call| call.0.number() == which.number() && call.1 == number)
}

/// The bytes without the last one, if there is one.
fn without_last(bytes: &[u8]) -> &[u8]
    ensures { result.now ≡ take (length bytes.now - 1) bytes.now }
{
    &bytes[..bytes.len().saturating_sub(1)]
}

/// Replaces what `out` has by the bytes. The memory that it has is used again.
fn replace(out: &mut Vec<u8>, bytes: &[u8]) -> Result<(), Memory>
    ensures replaced { OnOk result (out.new.items ≡ bytes.now) }
    ensures kept { OnErr result (out.new.items ≡ out.old.items) }
{
    out.try_reserve(bytes.len())?;
    out.clear();
    match out.extend_from_slice(bytes) {
        Ok(()) => Ok(()),
        Err(_) => unreachable!(),
    }
}
