use ss_fail::Outcome;
use ss_vault::VaultFault;

/// Why an act isn't made.
#[derive(Clone, Copy, Debug, PartialEq, Eq)]
pub enum EngineFault {
    /// The vault met a fault of a device, or damage, or was halted by one; never its want of memory.
    Vault(VaultFault),
    /// Vertex `v` would have given `reached` elements, more than the job allows of a stream.
    Full { v: u32, reached: u64 },
    /// Memory was wanting.
    Memory,
}

impl EngineFault {
    ghost use Rattle.std.specs.Prelude.{◌≡◌};
    ghost use Rattle.ss_acts.specs.Faults.{of_vault};

    /// A fault of the vault as an act tells it.
    pub(crate) fn of_vault(fault: VaultFault) -> EngineFault
        ensures { result ≡ of_vault fault }
    {
        match fault {
            VaultFault::Store { .. }
            | VaultFault::Output { .. }
            | VaultFault::Damaged { .. }
            | VaultFault::Halted => EngineFault::Vault(fault),
            VaultFault::Memory => EngineFault::Memory,
        }
    }
}

/// What comes of a read before the vault is asked.
#[derive(Clone, Copy, Debug, PartialEq, Eq)]
pub enum ReadPart {
    /// The read is made.
    Did(Outcome),
    /// The wanted element isn't in the tail and may be stored, so the vault is to be asked. Nothing was done.
    AskVault,
}
