ghost use Rattle.std.specs.Prelude.{◌≡◌};

use std::marker::Model;

/// The snapshot of a vertex that reads streams and gives one, as it is stored.
#[derive(Debug, Drop)]
pub struct Frame {
    /// The number of the vertex.
    pub v: u32,
    /// How many elements of its inputs, merged, it had accepted.
    pub n: u64,
    /// How many elements it had given for them.
    pub out: u64,
    /// What the vertex does: 1 is select, 2 union, 3 window, 4 join.
    pub op: u8,
    /// How many inputs it has, 1 to 8.
    pub width: u32,
    /// How many of the elements came from each input; 0 at the places from `width` on.
    pub pos: [u64; 8],
    /// The bound of each input, at most 2^63; 0 at the places from `width` on.
    pub bounds: [u64; 8],
    /// What the vertex's operator held.
    pub image: Image,
}

/// The bytes of what an operator held. What they are is the operator's own.
#[derive(Debug, Drop)]
pub struct Image {
    bytes: Vec<u8>,
}

impl Model for Image {
    ghost use Rattle.std.specs.Prelude.{List, ℕ};

    ghost Value = { List ℕ };

    ghost view = { λ i. i.bytes.items };
}

impl Image {
    /// The image of these bytes.
    pub fn of(bytes: Vec<u8>) -> Image
        ensures { result ≡ bytes.items }
    {
        Image { bytes }
    }

    /// The image's bytes.
    pub fn as_slice(&self) -> &[u8]
        ensures { result.now ≡ self.now }
    {
        self.bytes.as_slice()
    }
}
