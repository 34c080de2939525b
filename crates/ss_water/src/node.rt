/// What a node of a graph is.
#[derive(Clone, Copy, Debug, PartialEq, Eq)]
pub enum Kind {
    /// It reads no stream and gives one.
    Source,
    /// It reads streams and gives one.
    Inner,
    /// It reads streams and gives none.
    Sink,
}

/// A node of a graph, and the nodes whose streams it reads.
#[derive(Clone, Copy, Debug, PartialEq, Eq)]
pub struct Node {
    /// What the node is.
    pub kind: Kind,
    /// The numbers of the nodes that it reads, in the order of its inputs: the first `width` of them. The
    /// others say nothing.
    pub inputs: [u32; 8],
    /// How many inputs it has, 0 to 8.
    pub width: u32,
}
