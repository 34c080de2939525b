//! Files that are written from front to back, by name.

ghost use Rattle.std.specs.Prelude.{◌≡◌};
ghost use Rattle.ss_outside.specs.declared.outputs.PutFault.TheVariants.{Memory};

use std::alloc::AllocError;

/// Why a text wasn't put whole.
#[derive(Clone, Copy, Debug, PartialEq, Eq)]
pub enum PutFault {
    /// The device failed. It took a prefix of the text, which may be empty, and the count of faults rose.
    Failed,
    /// Memory was wanting. Nothing was put.
    Memory,
}

impl From<AllocError> for PutFault {
    ghost from_gives = { λ _ fault. fault ≡ Memory };

    fn from(_: AllocError) -> PutFault {
        PutFault::Memory
    }
}

/// A place to write files to. It may tell the bytes of its names, it tells which names were put to, and it counts
/// its faults.
/// The name `-` stands for standard output and `!` for standard error.
pub trait Outputs: Drop {
    ghost use Rattle.ss_outside.specs.Told.{OutputsTold, Puts};

    ghost told: { Self → OutputsTold };

    /// How many faults there were. The count stays at `u64::MAX`.
    fn faults(&self) -> u64
        ensures { result ≡ (told self.now).faults };

    /// Appends the text to the file of that name.
    fn put(&mut self, name: &str, text: &[u8]) -> Result<(), PutFault>
        ensures { Puts (told self.old) (told self.new) name.now text.now result };
}
