/// What is wrong with bytes.
#[derive(Clone, Copy, Debug, PartialEq, Eq)]
pub enum CodecFault {
    /// There are `have` bytes, fewer than the `want` that are wanted here.
    Short { have: u64, want: u64 },
    /// The byte at this place is none that may stand there.
    BadTag { at: u64 },
    /// Bytes follow at this place, where there should be none.
    Extra { at: u64 },
    /// The digest that stands in the bytes, and the one of the bytes before it.
    BadDigest { kept: [u8; 32], found: [u8; 32] },
    /// The value that begins at this place isn't the one asked for, or is none that is stored.
    BadValue { at: u64 },
}

/// Why no frame was read.
#[derive(Clone, Copy, Debug, PartialEq, Eq)]
pub enum FrameFault {
    /// This is wrong with the bytes.
    Code(CodecFault),
    /// Memory ran out.
    Memory,
}
