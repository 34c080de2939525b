ghost use Rattle.std.specs.Prelude.{◌≡◌};
ghost use Rattle.ss_job.specs.Format.{key_of};

/// A field of a job file.
#[derive(Clone, Copy, Debug, PartialEq, Eq)]
pub enum FieldName {
    /// The table of the job's limits.
    Job,
    /// The array of the vertices.
    Vertex,
    /// The most elements that a stream may have.
    MaxElements,
    /// How many elements may be stored between two passes of collection.
    CollectEvery,
    /// A vertex's name.
    Name,
    /// What a vertex does.
    Op,
    /// The names of the vertices that a vertex reads.
    Inputs,
    /// The file that a source reads, or a sink writes.
    File,
    /// What becomes of the rows of a source's file that come late.
    Late,
    /// Which rows a select lets pass.
    Where,
    /// The first value of a select's rows.
    A,
    /// The second value of a select's rows.
    B,
    /// The third value of a select's rows.
    C,
    /// The fourth value of a select's rows.
    D,
    /// How long the spans are from which a window takes its rows.
    Size,
    /// How far apart a window's ends are.
    Hop,
    /// How far apart two rows of a key start that are of different sessions.
    Gap,
    /// What a window or a session makes of its rows' values.
    Agg,
    /// Which of the values a window or a session takes.
    Of,
    /// How a vertex is recovered.
    Recover,
    /// How many elements a vertex takes between two snapshots.
    Every,
    /// How many replicas of a vertex there are.
    Replicas,
}

impl FieldName {
    /// The key under which the field stands.
    pub(crate) fn key(self) -> &'static str
        ensures { result.now ≡ key_of self }
    {
        match self {
            FieldName::Job => "job",
            FieldName::Vertex => "vertex",
            FieldName::MaxElements => "max_elements",
            FieldName::CollectEvery => "collect_every",
            FieldName::Name => "name",
            FieldName::Op => "op",
            FieldName::Inputs => "inputs",
            FieldName::File => "file",
            FieldName::Late => "late",
            FieldName::Where => "where",
            FieldName::A => "a",
            FieldName::B => "b",
            FieldName::C => "c",
            FieldName::D => "d",
            FieldName::Size => "size",
            FieldName::Hop => "hop",
            FieldName::Gap => "gap",
            FieldName::Agg => "agg",
            FieldName::Of => "of",
            FieldName::Recover => "recover",
            FieldName::Every => "every",
            FieldName::Replicas => "replicas",
        }
    }
}
