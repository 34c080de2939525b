/// How an operator is kept safe.
#[derive(Clone, Copy, Debug, PartialEq, Eq)]
pub struct Policy {
    /// Whether a snapshot is stored only where the operator holds no rows, so that it is recovered by replay.
    pub replay: bool,
    /// How many elements it takes between two snapshots, 1 to 131,072.
    pub every: u64,
    /// How many replicas of it there are, 1 to 4.
    pub replicas: u32,
}
