//! The durable store.

ghost use Rattle.std.specs.Prelude.{◌≡◌, ◌<◌, ◌≤◌, ◌^◌, length, IsSome, IsNone};
ghost use Rattle.ss_outside.specs.declared.depot.DepotFault.TheVariants.{Memory};

use std::alloc::AllocError;

/// Why a depot didn't do what takes memory.
#[derive(Clone, Copy, Debug, PartialEq, Eq)]
pub enum DepotFault {
    /// The device failed. The count of faults rose.
    Failed,
    /// Memory was wanting.
    Memory,
}

/// The device failed at what takes no memory. The count of faults rose.
#[derive(Clone, Copy, Debug, PartialEq, Eq)]
pub struct Failed;

impl From<AllocError> for DepotFault {
    ghost from_gives = { λ _ fault. fault ≡ Memory };

    fn from(_: AllocError) -> DepotFault {
        DepotFault::Memory
    }
}

/// A durable store. It holds of each vertex a list of records under continuous numbers, and frames by number. It
/// tells all that it holds, and it counts its faults and its short answers.
pub trait Depot: Drop {
    ghost use Rattle.ss_outside.specs.Depot.{AddsFrame, AppendsRecord, CutsRecords, DepotTold, DropsFrames};
    ghost use Rattle.ss_outside.specs.Depot.{FetchesRecord, LoadsFrame, next_number, record_at};

    ghost told: { Self → DepotTold };

    /// How many calls failed. The count stays at `u64::MAX`.
    fn faults(&self) -> u64
        ensures { result ≡ (told self.now).faults };

    /// How many answers were short. The count stays at `u64::MAX`.
    fn shorts(&self) -> u64
        ensures { result ≡ (told self.now).shorts };

    /// Holds the bytes as record n of v, the one after the last.
    fn append(&mut self, v: u32, n: u64, bytes: &[u8]) -> Result<(), DepotFault>
        requires vertex { v < 32 }
        requires next { n ≡ next_number (told self.old).contents v }
        requires few { length bytes.now < 2 ^ 32 }
        ensures { AppendsRecord (told self.old) (told self.new) v bytes.now result };

    /// Replaces `out` by record n of v, or leaves it as it was.
    fn fetch(&mut self, v: u32, n: u64, out: &mut Vec<u8>) -> Result<(), DepotFault>
        requires vertex { v < 32 }
        requires held { IsSome (record_at (told self.old).contents v n) }
        ensures { FetchesRecord (told self.old) (told self.new) v n out.old.items out.new.items result };

    /// Drops the records of v below m, which is the number of its first record then.
    fn cut(&mut self, v: u32, m: u64) -> Result<(), Failed>
        requires vertex { v < 32 }
        requires forward { (told self.old).contents.first v ≤ m }
        ensures { CutsRecords (told self.old) (told self.new) v m result };

    /// Holds the bytes as frame n of v.
    fn keep(&mut self, v: u32, n: u64, bytes: &[u8]) -> Result<(), DepotFault>
        requires vertex { v < 32 }
        requires absent { IsNone ((told self.old).contents.frames v n) }
        requires few { length bytes.now < 2 ^ 32 }
        ensures { AddsFrame (told self.old) (told self.new) v n bytes.now result };

    /// Replaces `out` by frame n of v, or leaves it as it was.
    fn load(&mut self, v: u32, n: u64, out: &mut Vec<u8>) -> Result<(), DepotFault>
        requires vertex { v < 32 }
        requires held { IsSome ((told self.old).contents.frames v n) }
        ensures { LoadsFrame (told self.old) (told self.new) v n out.old.items out.new.items result };

    /// Drops the frames of v below n.
    fn drop_below(&mut self, v: u32, n: u64) -> Result<(), Failed>
        requires vertex { v < 32 }
        ensures { DropsFrames (told self.old) (told self.new) v n result };
}
