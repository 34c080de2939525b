/// What a command works on: where it reads, where it writes, and its store.
#[derive(Drop)]
pub struct Outside<I, O, D> {
    /// The files that are read.
    pub inputs: I,
    /// The files that are written, `-` for standard output and `!` for standard error.
    pub outputs: O,
    /// The durable store.
    pub depot: D,
}

/// What a command leaves: its status, and what it worked on.
#[derive(Drop)]
pub struct Done<I, O, D> {
    /// 0 where the work is done, else what kind of fault ended it.
    pub status: u8,
    /// What the command was given.
    pub outside: Outside<I, O, D>,
}
