use crate::counts::Counts;
use crate::fault::VaultFault;
use crate::numbers::Numbers;

/// The durable side of a running job: what is stored of its streams and vertices, in a depot, and the files of its
/// sinks.
#[derive(Drop)]
pub struct Vault<O, D> {
    pub(crate) numbers: Numbers,
    /// What halted it.
    pub(crate) halted: Option<VaultFault>,
    /// The counts of its devices when it was started.
    pub(crate) started: Counts,
    pub(crate) depot: D,
    pub(crate) outputs: O,
    /// Bytes on their way to the depot or from it.
    pub(crate) buffer: Vec<u8>,
}
