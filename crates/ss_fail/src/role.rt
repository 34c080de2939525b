use crate::name::Name;
use ss_water::Kind;

/// What scripts need to know of a vertex.
#[derive(Clone, Copy, Debug, PartialEq, Eq)]
pub struct Role {
    /// The vertex's name.
    pub name: Name,
    /// What the vertex is.
    pub kind: Kind,
    /// How many replicas it has, under the numbers from 0 on.
    pub replicas: u32,
}
