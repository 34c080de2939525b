ghost use Rattle.std.specs.Prelude.{◌≡◌, ◌≤◌, map, true};
ghost use Rattle.ss_job.specs.Format.{vertex_keys};
ghost use Rattle.ss_job.specs.JobIn.{kind_of};
ghost use Rattle.ss_job.specs.Lookup.{op_named};
ghost use Rattle.ss_job.specs.Wrong.{has_input_count};

use ss_water::Kind;

/// What a vertex does.
#[derive(Clone, Copy, Debug, PartialEq, Eq)]
pub enum Op {
    /// It gives the elements of a file of events.
    Source,
    /// It gives the rows that pass a test, with new values.
    Select,
    /// It gives the rows of all its inputs.
    Union,
    /// It gives aggregates of the rows in hopping windows.
    Window,
    /// It gives the pairs of rows of two inputs that have one key and overlap.
    Join,
    /// It gives aggregates of the sessions of each key.
    Session,
    /// It gives the rows of its first input that no row of the second with their key overlaps.
    Except,
    /// It writes what it reads to a file.
    Sink,
}

impl Op {
    /// The op with this name.
    pub(crate) fn named(word: &str) -> Option<Op>
        ensures { result ≡ op_named word.now }
    {
        match word {
            "source" => Some(Op::Source),
            "select" => Some(Op::Select),
            "union" => Some(Op::Union),
            "window" => Some(Op::Window),
            "join" => Some(Op::Join),
            "session" => Some(Op::Session),
            "except" => Some(Op::Except),
            "sink" => Some(Op::Sink),
            _ => None,
        }
    }

    /// The fields that a vertex with this op may have.
    pub(crate) fn keys(self) -> &'static [&'static str]
        ensures { map (λ key. key.now) result.now ≡ vertex_keys self }
    {
        match self {
            Op::Source => &["name", "op", "file", "late", "replicas"],
            Op::Select => &[
                "name", "op", "inputs", "where", "a", "b", "c", "d", "recover", "every", "replicas",
            ],
            Op::Union | Op::Join | Op::Except => {
                &["name", "op", "inputs", "recover", "every", "replicas"]
            }
            Op::Window => &[
                "name", "op", "inputs", "hop", "size", "agg", "of", "recover", "every", "replicas",
            ],
            Op::Session => &[
                "name", "op", "inputs", "gap", "agg", "of", "recover", "every", "replicas",
            ],
            Op::Sink => &["name", "op", "inputs", "file"],
        }
    }

    /// Whether a vertex with this op may have so many inputs.
    pub(crate) fn takes(self, count: usize) -> bool
        ensures count { result ≡ has_input_count self count }
        ensures few { result ≡ true → count ≤ 8 }
    {
        match self {
            Op::Source => count == 0,
            Op::Select | Op::Window | Op::Session | Op::Sink => count == 1,
            Op::Union => 2 <= count && count <= 8,
            Op::Join | Op::Except => count == 2,
        }
    }

    /// What a vertex with this op is in the graph.
    pub(crate) fn kind(self) -> Kind
        ensures { result ≡ kind_of self }
    {
        match self {
            Op::Source => Kind::Source,
            Op::Select | Op::Union | Op::Window | Op::Join | Op::Session | Op::Except => {
                Kind::Inner
            }
            Op::Sink => Kind::Sink,
        }
    }
}
