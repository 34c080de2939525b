/// What is drawn of a row.
#[derive(Clone, Copy)]
pub(crate) struct Row {
    pub(crate) start: u64,
    pub(crate) end: u64,
    pub(crate) key: u64,
    /// The first value and 500.
    pub(crate) first: u64,
    pub(crate) second: u64,
}
