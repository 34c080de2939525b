ghost use Rattle.ss_meaning.specs.JoinLaws.{EndedRowsNeverJoin, SideAfterRise, SideAfterRow};

/// The rows that a join remembers of an input give all that the input's rows would give with a later row of the other
/// input, and they follow from those that it remembered before.
pub fn join_sides_follow()
    ensures ended { EndedRowsNeverJoin }
    ensures rise { SideAfterRise }
    ensures row { SideAfterRow }
{}
