//! Files that are read whole, by name.

ghost use Rattle.std.specs.Prelude.{◌≡◌};
ghost use Rattle.ss_outside.specs.declared.inputs.InputFault.TheVariants.{Memory};

use std::alloc::AllocError;

/// Why a file wasn't read.
#[derive(Clone, Copy, Debug, PartialEq, Eq)]
pub enum InputFault {
    /// The device failed, or has no such file. The count of faults rose.
    Failed,
    /// Memory was wanting.
    Memory,
}

impl From<AllocError> for InputFault {
    ghost from_gives = { λ _ fault. fault ≡ Memory };

    fn from(_: AllocError) -> InputFault {
        InputFault::Memory
    }
}

/// A place to read files from. It tells what is known of each name, and it counts its faults.
pub trait Inputs: Drop {
    ghost use Rattle.ss_outside.specs.Told.{InputsTold, Reads, Releases};

    ghost told: { Self → InputsTold };

    /// How many faults there were. The count stays at `u64::MAX`.
    fn faults(&self) -> u64
        ensures { result ≡ (told self.now).faults };

    /// Replaces `out` by the whole file, or leaves it as it was.
    fn read(&mut self, name: &str, out: &mut Vec<u8>) -> Result<(), InputFault>
        ensures { Reads (told self.old) (told self.new) name.now out.old.items out.new.items result };

    /// Says that what stands before the mark will not be read again. The mark of a name never falls.
    fn release(&mut self, name: &str, mark: u64)
        ensures { Releases (told self.old) (told self.new) name.now mark };
}
