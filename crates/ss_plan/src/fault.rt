/// Why a plan isn't made, or a stream not computed.
#[derive(Clone, Copy, Debug, PartialEq, Eq)]
pub enum PlanFault {
    /// The stream of vertex `v` is longer than the job allows: it has `reached` elements, or reaches so many.
    Full { v: u32, reached: u64 },
    /// Memory ran out.
    Memory,
}
