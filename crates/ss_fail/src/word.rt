ghost use Rattle.std.specs.Prelude.{◌≡◌};
ghost use Rattle.ss_fail.specs.Acts.{act_word};

/// A word for what a replica does.
#[derive(Clone, Copy, Debug, PartialEq, Eq)]
pub(crate) enum ReplicaWord {
    Read,
    Write,
    Snap,
    Crash,
    Load,
}

/// A word for what becomes of a stream.
#[derive(Clone, Copy, Debug, PartialEq, Eq)]
pub(crate) enum StreamWord {
    Lose,
    Collect,
    Trim,
}

/// The word with which the line of an act begins.
#[derive(Clone, Copy, Debug, PartialEq, Eq)]
pub(crate) enum ActWord {
    OfReplica(ReplicaWord),
    OfStream(StreamWord),
    Flush,
    Take,
    Pass,
}

/// The word that these bytes write.
pub(crate) fn act_word(word: &[u8]) -> Option<ActWord>
    ensures { result ≡ act_word word.now }
{
    if word == b"read".as_slice() {
        Some(ActWord::OfReplica(ReplicaWord::Read))
    } else if word == b"write".as_slice() {
        Some(ActWord::OfReplica(ReplicaWord::Write))
    } else if word == b"snap".as_slice() {
        Some(ActWord::OfReplica(ReplicaWord::Snap))
    } else if word == b"crash".as_slice() {
        Some(ActWord::OfReplica(ReplicaWord::Crash))
    } else if word == b"load".as_slice() {
        Some(ActWord::OfReplica(ReplicaWord::Load))
    } else if word == b"lose".as_slice() {
        Some(ActWord::OfStream(StreamWord::Lose))
    } else if word == b"flush".as_slice() {
        Some(ActWord::Flush)
    } else if word == b"take".as_slice() {
        Some(ActWord::Take)
    } else if word == b"collect".as_slice() {
        Some(ActWord::OfStream(StreamWord::Collect))
    } else if word == b"trim".as_slice() {
        Some(ActWord::OfStream(StreamWord::Trim))
    } else if word == b"pass".as_slice() {
        Some(ActWord::Pass)
    } else {
        None
    }
}
