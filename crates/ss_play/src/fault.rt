ghost use Rattle.std.specs.Prelude.{◌≡◌};
ghost use Rattle.ss_play.specs.declared.fault.PlayFault.TheVariants as fault;

use ss_engine::EngineFault;
use ss_vault::VaultFault;
use std::alloc::AllocError;

/// What stopped a job before all acts were made.
#[derive(Clone, Copy, Debug, PartialEq, Eq)]
pub enum PlayFault {
    /// The store failed.
    Store,
    /// An output failed.
    Output,
    /// The stream of vertex `v` has more elements than the job allows.
    Full { v: u32 },
    /// Memory was wanting.
    Memory,
    /// What the store gave as element or snapshot `n` of vertex `v` was not whole.
    Damaged { v: u32, n: u64 },
}

impl PlayFault {
    ghost use Rattle.ss_play.specs.Faults as faults;

    /// What an act's fault tells of a job.
    pub fn of_engine(fault: EngineFault) -> PlayFault
        ensures { result ≡ faults.of_engine fault }
    {
        match fault {
            EngineFault::Vault(fault) => PlayFault::of_vault(fault),
            EngineFault::Full { v, .. } => PlayFault::Full { v },
            EngineFault::Memory => PlayFault::Memory,
        }
    }

    /// What a vault's fault tells of a job: none is halted before it meets another.
    pub fn of_vault(fault: VaultFault) -> PlayFault
        ensures { result ≡ faults.of_vault fault }
    {
        match fault {
            VaultFault::Store { .. } => PlayFault::Store,
            VaultFault::Output { .. } => PlayFault::Output,
            VaultFault::Damaged { v, n } => PlayFault::Damaged { v, n },
            VaultFault::Halted | VaultFault::Memory => PlayFault::Memory,
        }
    }
}

impl From<AllocError> for PlayFault {
    ghost from_gives = { λ _ f. f ≡ fault.Memory };

    fn from(_: AllocError) -> PlayFault {
        PlayFault::Memory
    }
}
