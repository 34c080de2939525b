ghost use Rattle.std.specs.Prelude.{◌≡◌};

/// Why a call didn't do what it should.
///
/// The first three halt the vault: from then on each call but the readers answers `Halted`.
#[derive(Clone, Copy, Debug, PartialEq, Eq)]
pub enum VaultFault {
    /// The depot failed; it has counted `count` faults.
    Store { count: u64 },
    /// The outputs failed; they have counted `count` faults.
    Output { count: u64 },
    /// What the depot gave as record or snapshot `n` of vertex `v` was not whole.
    Damaged { v: u32, n: u64 },
    /// The vault was halted by an earlier call. Nothing was done.
    Halted,
    /// Memory was wanting.
    Memory,
}

impl VaultFault {
    ghost use Rattle.ss_vault.specs.Steps.{halt_of};

    /// How this fault halts the vault that met it.
    pub(crate) fn halts(self) -> Option<VaultFault>
        ensures { result ≡ halt_of self }
    {
        match self {
            VaultFault::Store { .. } | VaultFault::Output { .. } | VaultFault::Damaged { .. } =>
                Some(self),
            VaultFault::Halted | VaultFault::Memory => None,
        }
    }
}

/// What a vault that couldn't be started hands back.
#[derive(Drop)]
pub struct Refused<O, D> {
    /// Why.
    pub fault: VaultFault,
    /// The depot, with no more than the first snapshots of some vertices.
    pub depot: D,
    /// The outputs as they were.
    pub outputs: O,
}
