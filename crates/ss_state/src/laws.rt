ghost use Rattle.ss_state.specs.Laws.{PositionsNeverFall, OutNeverFalls};
ghost use Rattle.ss_state.specs.Laws.{FirstStateIsJoint, ActsKeepJoint, FaultsKeepJoint};
ghost use Rattle.ss_state.specs.Laws.{ActsMakeOneEntry, NothingDurableFalls};
ghost use Rattle.ss_state.specs.Laws.{FlushIsNeverApart, EntriesKeepSound, EntriesLowerNothing};
ghost use Rattle.ss_state.specs.Laws.{LeastWantedIsOne, NeedIsLeast, RequiredAreMarks, MarksAreOne};
ghost use Rattle.ss_state.specs.Laws.{NeededIsThere, SnapshotsAreThere, MarkIsBelowStart, PassCollectsExactly};
ghost use Rattle.ss_state.specs.Laws.{LowIsBelowStart, NeedIsBelowRequired, NothingRequiredGoes};

/// Neither what a vertex has read of an input nor what it has given falls as it accepts more.
pub fn positions_never_fall()
    ensures pos { PositionsNeverFall }
    ensures out { OutNeverFalls }
{}

/// A job that has just been started is joint.
pub fn first_state_is_joint()
    ensures { FirstStateIsJoint }
{}

/// Every act keeps a job joint, whether it is made or meets a fault.
pub fn acts_keep_joint()
    ensures made { ActsKeepJoint }
    ensures fault { FaultsKeepJoint }
{}

/// Each act changes the ledger by at most one entry of the journal, which may stand where it does.
pub fn acts_make_one_entry()
    ensures { ActsMakeOneEntry }
{}

/// No act lowers what is stored, collected or taken, nor a low-water mark.
pub fn nothing_durable_falls()
    ensures { NothingDurableFalls }
{}

/// The batch of a flush never begins above what is stored.
pub fn flush_is_never_apart()
    ensures { FlushIsNeverApart }
{}

/// What is needed of a stream, what is required of it, and from where each vertex starts, told by what they are.
pub fn marks_are_least()
    ensures one { LeastWantedIsOne }
    ensures need { NeedIsLeast }
    ensures required { RequiredAreMarks }
    ensures no_others { MarksAreOne }
{}

/// What is needed of a stream is at most what is required of it, over any ledger.
pub fn need_is_below_required()
    ensures low { LowIsBelowStart }
    ensures need { NeedIsBelowRequired }
{}

/// No act drops a stored element that is required.
pub fn nothing_required_goes()
    ensures { NothingRequiredGoes }
{}

/// An entry that may stand where it does keeps a vault sound, and lowers nothing.
pub fn entries_keep_sound()
    ensures sound { EntriesKeepSound }
    ensures lower { EntriesLowerNothing }
{}

/// Nothing is gone that is needed to start every vertex again from what is stored.
pub fn nothing_needed_is_gone()
    ensures elements { NeededIsThere }
    ensures snapshots { SnapshotsAreThere }
    ensures mark { MarkIsBelowStart }
{}

/// A whole pass drops exactly what is not required, and leaves what is required as it was.
pub fn pass_collects_exactly()
    ensures { PassCollectsExactly }
{}
