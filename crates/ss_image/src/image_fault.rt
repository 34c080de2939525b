ghost use Rattle.std.specs.Prelude.{◌≡◌};
ghost use Rattle.ss_image.specs.declared.image_fault.ImageFault.TheVariants.{Memory};

use std::alloc::{AllocError, AllocFailed};

/// Why bytes are not taken as an image.
#[derive(Clone, Copy, Debug, PartialEq, Eq)]
pub enum ImageFault {
    /// They are none. `at` is the place of the first byte of the first entry or row at fault, or 0 where there are more
    /// or fewer bytes than the counts in front say.
    At { at: u64 },
    /// Memory runs out.
    Memory,
}

impl From<AllocError> for ImageFault {
    ghost from_gives = { λ _ e. e ≡ Memory };

    fn from(_: AllocError) -> ImageFault {
        ImageFault::Memory
    }
}

impl<T: Drop> From<AllocFailed<T>> for ImageFault {
    ghost from_gives = { λ _ e. e ≡ Memory };

    fn from(_: AllocFailed<T>) -> ImageFault {
        ImageFault::Memory
    }
}
