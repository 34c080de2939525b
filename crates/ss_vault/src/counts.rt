ghost use Rattle.std.specs.Prelude.{◌≡◌};
ghost use Rattle.ss_vault.specs.Counts.{counts_told};

use ss_outside::{Depot, Outputs};

/// How often the devices of a vault have failed. Each count stays at `u64::MAX`.
#[derive(Clone, Copy, Debug, PartialEq, Eq)]
pub struct Counts {
    /// Calls of the depot that failed.
    pub faults: u64,
    /// Puts that failed.
    pub output_faults: u64,
    /// Answers of the depot that were short.
    pub shorts: u64,
}

/// How often these devices have failed.
pub(crate) fn counts_of<O: Outputs, D: Depot>(outputs: &O, depot: &D) -> Counts
    ensures { result ≡ counts_told (O.told outputs.now) (D.told depot.now) }
{
    Counts {
        faults: depot.faults(),
        output_faults: outputs.faults(),
        shorts: depot.shorts(),
    }
}
