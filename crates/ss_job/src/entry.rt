use crate::inputs::Inputs;
use crate::vertex::Vertex;

/// What a table says of a vertex besides its name and its op.
#[derive(Drop)]
pub(crate) struct Entry {
    pub(crate) inputs: Inputs,
    pub(crate) replicas: u32,
    pub(crate) vertex: Vertex,
}
