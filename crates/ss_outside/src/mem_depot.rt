//! A depot in memory.

ghost use Rattle.std.specs.Prelude.{◌≡◌, [], ◌∷◌, ◌++◌, ◌<◌, ◌≤◌, ◌^◌, ℕ, true, length, is_err, IsSome, IsNone};
ghost use Rattle.std.specs.Prelude.{OnOk, OnErr, IfSome, IsTrue, IsFalse, Some, None, drop, slice_get, nat_lt};
ghost use Rattle.std.specs.Prelude.{if◌then◌else◌};
ghost use Rattle.std.specs.BTreeMap.{btree_map_len};
ghost use Rattle.ss_outside.specs.Depot.{replaced_at};
ghost use Rattle.ss_outside.specs.MemDepot.{frame_in, frames_in, records_in};

use crate::Memory;
use crate::depot::{Depot, DepotFault, Failed};
use crate::depot_calls::{DepotCall, DepotCalls};
use crate::records::Records;
use std::alloc::Global;
use std::collections::BTreeMap;

/// A depot in memory. The calls that were listed fail, and the fetches and loads that were listed give short answers.
#[derive(Drop)]
pub struct MemDepot {
    // By vertex: the number of the first record, how many records were appended, the records, the frames by number.
    firsts: [u64; 32],
    appended: [u64; 32],
    records: BTreeMap<u32, Records>,
    frames: BTreeMap<u32, BTreeMap<u64, Vec<u8>>>,
    calls: DepotCalls,
}

impl MemDepot {
    ghost use Rattle.ss_outside.specs.Depot.{no_contents};
    ghost use Rattle.ss_outside.specs.DepotCalls.{IsFresh, calls_damaged, calls_listed, gives_bytes};
    ghost use Rattle.ss_outside.specs.MemDepot.{OnlyLists, appended_to, calls_of, mem_depot_told};

    /// A depot that holds nothing, with no call listed and no fault. It takes no memory.
    pub fn new(alloc: Global) -> MemDepot
        ensures empty { (mem_depot_told result).contents ≡ no_contents }
        ensures fresh { IsFresh (calls_of result) }
        ensures appended { (v : ℕ) → appended_to result v ≡ 0 }
    {
        MemDepot {
            firsts: [0; 32],
            appended: [0; 32],
            records: BTreeMap::new(alloc),
            frames: BTreeMap::new(alloc),
            calls: DepotCalls::new(alloc),
        }
    }

    /// The call of that kind and number, from 1, is to fail.
    pub fn fail(&mut self, which: DepotCall, call: u64) -> Result<(), Memory>
        ensures added { OnOk result (calls_listed (calls_of self.new) ≡
            calls_listed (calls_of self.old) ++ (which, call) ∷ []) }
        ensures kept { OnErr result (calls_listed (calls_of self.new) ≡ calls_listed (calls_of self.old)) }
        ensures damaged { calls_damaged (calls_of self.new) ≡ calls_damaged (calls_of self.old) }
        ensures others { OnlyLists self.old self.new }
    {
        self.calls.fail(which, call)
    }

    /// The fetch or load of that number, from 1, is to answer short: without the last byte, if there is one.
    pub fn damage(&mut self, which: DepotCall, call: u64) -> Result<(), Memory>
        requires { gives_bytes which ≡ true }
        ensures added { OnOk result (calls_damaged (calls_of self.new) ≡
            calls_damaged (calls_of self.old) ++ (which, call) ∷ []) }
        ensures kept { OnErr result (calls_damaged (calls_of self.new) ≡ calls_damaged (calls_of self.old)) }
        ensures listed { calls_listed (calls_of self.new) ≡ calls_listed (calls_of self.old) }
        ensures others { OnlyLists self.old self.new }
    {
        self.calls.damage(which, call)
    }

    /// How many appends to v answered Ok. The count stays at `u64::MAX`.
    pub fn appended(&self, v: u32) -> u64
        requires { v < 32 }
        ensures { result ≡ appended_to self.now v }
    {
        self.appended[v as usize]
    }
}

impl Depot for MemDepot {
    ghost use Rattle.ss_outside.specs.Depot.{AddsFrame, AppendsRecord, CutsRecords, DropsFrames};
    ghost use Rattle.ss_outside.specs.Depot.{FetchesRecord, LoadsFrame, next_number, record_at};
    ghost use Rattle.ss_outside.specs.DepotCalls.{depot_failed};
    ghost use Rattle.ss_outside.specs.MemDepot.{CallsAsListed, CountsAppend, GivesAsListed, KeepsAppends};
    ghost use Rattle.ss_outside.specs.MemDepot.{contents_held, mem_depot_told};

    ghost told = { mem_depot_told };

    fn faults(&self) -> u64 {
        self.calls.faults()
    }

    fn shorts(&self) -> u64 {
        self.calls.shorts()
    }

    fn append(&mut self, v: u32, n: u64, bytes: &[u8]) -> Result<(), DepotFault>
        requires vertex { v < 32 }
        requires next { n ≡ next_number (contents_held self.old) v }
        requires few { length bytes.now < 2 ^ 32 }
        ensures appends { AppendsRecord (mem_depot_told self.old) (mem_depot_told self.new) v bytes.now result }
        ensures listed { CallsAsListed self.old self.new DepotCall.Append (depot_failed result) }
        ensures counted { CountsAppend self.old self.new v result }
    {
        if self.calls.begin(DepotCall::Append) {
            return Err(DepotFault::Failed);
        }
        let alloc = self.calls.allocator();
        push_record(alloc, &mut self.records, v, bytes)?;
        let v = v as usize;
        self.appended[v] = self.appended[v].saturating_add(1);
        Ok(())
    }

    fn fetch(&mut self, v: u32, n: u64, out: &mut Vec<u8>) -> Result<(), DepotFault>
        requires vertex { v < 32 }
        requires held { IsSome (record_at (contents_held self.old) v n) }
        ensures fetches { FetchesRecord (mem_depot_told self.old) (mem_depot_told self.new) v n
            out.old.items out.new.items result }
        ensures listed { let held = record_at (contents_held self.old) v n in
            GivesAsListed self.old self.new DepotCall.Fetch held out.new.items result }
        ensures counted { KeepsAppends self.old self.new }
    {
        let bytes = record_of(&self.records, v, (n - self.firsts[v as usize]) as usize);
        self.calls.give(DepotCall::Fetch, bytes, out)
    }

    fn cut(&mut self, v: u32, m: u64) -> Result<(), Failed>
        requires vertex { v < 32 }
        requires forward { (contents_held self.old).first v ≤ m }
        ensures cuts { CutsRecords (mem_depot_told self.old) (mem_depot_told self.new) v m result }
        ensures listed { CallsAsListed self.old self.new DepotCall.Cut (is_err result) }
        ensures counted { KeepsAppends self.old self.new }
    {
        if self.calls.begin(DepotCall::Cut) {
            return Err(Failed);
        }
        let first = self.firsts[v as usize];
        cut_records(&mut self.records, v, (m - first) as usize);
        self.firsts[v as usize] = m;
        Ok(())
    }

    fn keep(&mut self, v: u32, n: u64, bytes: &[u8]) -> Result<(), DepotFault>
        requires vertex { v < 32 }
        requires absent { IsNone ((contents_held self.old).frames v n) }
        requires few { length bytes.now < 2 ^ 32 }
        ensures adds { AddsFrame (mem_depot_told self.old) (mem_depot_told self.new) v n bytes.now result }
        ensures listed { CallsAsListed self.old self.new DepotCall.Keep (depot_failed result) }
        ensures counted { KeepsAppends self.old self.new }
    {
        if self.calls.begin(DepotCall::Keep) {
            return Err(DepotFault::Failed);
        }
        let alloc = self.calls.allocator();
        put_frame(alloc, &mut self.frames, v, n, bytes)?;
        Ok(())
    }

    fn load(&mut self, v: u32, n: u64, out: &mut Vec<u8>) -> Result<(), DepotFault>
        requires vertex { v < 32 }
        requires held { IsSome ((contents_held self.old).frames v n) }
        ensures loads { LoadsFrame (mem_depot_told self.old) (mem_depot_told self.new) v n
            out.old.items out.new.items result }
        ensures listed { let held = (contents_held self.old).frames v n in
            GivesAsListed self.old self.new DepotCall.Load held out.new.items result }
        ensures counted { KeepsAppends self.old self.new }
    {
        let bytes = frame_of(&self.frames, v, n);
        self.calls.give(DepotCall::Load, bytes, out)
    }

    fn drop_below(&mut self, v: u32, n: u64) -> Result<(), Failed>
        requires vertex { v < 32 }
        ensures drops { DropsFrames (mem_depot_told self.old) (mem_depot_told self.new) v n result }
        ensures listed { CallsAsListed self.old self.new DepotCall.DropBelow (is_err result) }
        ensures counted { KeepsAppends self.old self.new }
    {
        if self.calls.begin(DepotCall::DropBelow) {
            return Err(Failed);
        }
        match self.frames.get_mut(&v) {
            Some(frames) => drop_frames(frames, n),
            None => (),
        }
        Ok(())
    }
}

/// Puts the bytes behind the last record of v, whose list is made where it has none yet.
fn push_record(
    alloc: Global,
    lists: &mut BTreeMap<u32, Records>,
    v: u32,
    bytes: &[u8],
) -> Result<(), Memory>
    ensures pushed { OnOk result ((w : ℕ) →
        records_in lists.new w ≡ replaced_at v (records_in lists.old v ++ bytes.now ∷ []) (records_in lists.old) w) }
    ensures kept { OnErr result ((w : ℕ) → records_in lists.new w ≡ records_in lists.old w) }
{
    match lists.get_mut(&v) {
        Some(records) => match records.push(bytes) {
            Ok(()) => Ok(()),
            Err(memory) => Err(memory),
        },
        None => {
            let mut records = Records::new(alloc);
            records.push(bytes)?;
            lists.insert(v, records)?;
            Ok(())
        }
    }
}

/// The record of v at that place, where it is held.
fn record_of(lists: &BTreeMap<u32, Records>, v: u32, place: usize) -> &[u8]
    ensures { IfSome (slice_get (records_in lists.now v) place) (λ held. result.now ≡ held) }
{
    match lists.get(&v) {
        Some(records) => records.get(place).unwrap_or(&[]),
        None => &[],
    }
}

/// Takes so many records of v away from the front.
fn cut_records(lists: &mut BTreeMap<u32, Records>, v: u32, count: usize)
    ensures { (w : ℕ) →
        records_in lists.new w ≡ replaced_at v (drop count (records_in lists.old v)) (records_in lists.old) w }
{
    match lists.get_mut(&v) {
        Some(records) => records.drop_front(count),
        None => (),
    }
}

/// Puts the bytes as frame n of v, whose map is made where it has none yet.
fn put_frame(
    alloc: Global,
    maps: &mut BTreeMap<u32, BTreeMap<u64, Vec<u8>>>,
    v: u32,
    n: u64,
    bytes: &[u8],
) -> Result<(), Memory>
    ensures put { OnOk result ((w m : ℕ) →
        let with_frame = replaced_at n (Some bytes.now) (frames_in maps.old v) in
        frames_in maps.new w m ≡ replaced_at v with_frame (frames_in maps.old) w m) }
    ensures kept { OnErr result ((w m : ℕ) → frames_in maps.new w m ≡ frames_in maps.old w m) }
{
    let bytes = bytes.to_vec(alloc)?;
    match maps.get_mut(&v) {
        Some(frames) => match frames.insert(n, bytes) {
            Ok(_) => Ok(()),
            Err(_) => Err(Memory),
        },
        None => {
            let mut frames = BTreeMap::new(alloc);
            frames.insert(n, bytes)?;
            maps.insert(v, frames)?;
            Ok(())
        }
    }
}

/// Frame n of v, where it is held.
fn frame_of(maps: &BTreeMap<u32, BTreeMap<u64, Vec<u8>>>, v: u32, n: u64) -> &[u8]
    ensures { IfSome (frames_in maps.now v n) (λ held. result.now ≡ held) }
{
    match maps.get(&v) {
        Some(frames) => match frames.get(&n) {
            Some(bytes) => bytes.as_slice(),
            None => &[],
        },
        None => &[],
    }
}

/// Drops the frames below number n.
fn drop_frames(frames: &mut BTreeMap<u64, Vec<u8>>, n: u64)
    ensures { (m : ℕ) → frame_in frames.new m ≡ (if nat_lt m n then None else frame_in frames.old m) }
{
    while is_first_below(frames, n) {
        let _ = frames.pop_first();
    }
}

/// Whether there is a frame below number n.
fn is_first_below(frames: &BTreeMap<u64, Vec<u8>>, n: u64) -> bool
    ensures some { IsTrue result → (m : ℕ) × (m < n) × IsSome (frame_in frames.now m) }
    ensures not_empty { IsTrue result → 0 < btree_map_len frames.now }
    ensures none { IsFalse result → (m : ℕ) → m < n → frame_in frames.now m ≡ None }
{
    match frames.first_key_value() {
        Some((first, _)) => *first < n,
        None => false,
    }
}
