ghost use Rattle.std.specs.Prelude.{◌≡◌};
ghost use Rattle.ss_job.specs.Vertices.{writes_to};

use crate::policy::Policy;
use ss_events::Late;
use ss_expr::Spec;

/// What a vertex does, and what it needs for it.
#[derive(Drop)]
pub(crate) enum Vertex {
    /// It gives the elements of a file; `late` says what becomes of rows that come late.
    Source { file: String, late: Late },
    /// It computes its elements from those of its inputs.
    Inner { spec: Spec, policy: Policy },
    /// It writes its input to a file, or to standard output where that is `-`.
    Sink { file: String },
}

impl Vertex {
    ghost use Rattle.ss_job.specs.Owned.{vertex_text};

    /// Whether it is a sink that writes to this file.
    pub(crate) fn writes_to(&self, file: &str) -> bool
        ensures { result ≡ writes_to file.now (vertex_text self.now) }
    {
        match self {
            Vertex::Source { .. } | Vertex::Inner { .. } => false,
            Vertex::Sink { file: other } => file == other.as_str(),
        }
    }
}
