ghost use Rattle.ss_rounds.specs.Laws.{RuledActsLowerTheTotal, WaitsChangeNothing, NoWaitsBehindWholeStreams};
ghost use Rattle.ss_rounds.specs.Laws.{FlushesLowerTheTotal, DueFlushesChangeNothing, PassesRaiseNothing};
ghost use Rattle.ss_rounds.specs.Laws.{NoPassIsDueBehindOne, PassAndFlushLowerTheTotal};
ghost use Rattle.ss_rounds.specs.Laws.{TakesLowerTheTotal, OtherTakesChangeNothing, OtherTakesHaveAll};
ghost use Rattle.ss_rounds.specs.Laws.{FailuresLeaveTheRest, FiredFailuresLowerTheTotal};
ghost use Rattle.ss_rounds.specs.Laws.{OverIsWhole, WholeStreamsStay, TakenSinksStay};

use ss_state::{
    acts_keep_joint, marks_are_least, nothing_durable_falls, pass_collects_exactly,
    positions_never_fall,
};

/// The next act of a vertex's first replica lowers the total, or waits for streams that aren't whole.
pub fn ruled_acts_lower_the_total()
    ensures lower { RuledActsLowerTheTotal }
    ensures still { WaitsChangeNothing }
    ensures sure { NoWaitsBehindWholeStreams }
{
    positions_never_fall();
}

/// A flush lowers the total, if need be behind a pass, and a pass alone doesn't raise it.
pub fn flushes_lower_the_total()
    ensures flush { FlushesLowerTheTotal }
    ensures still { DueFlushesChangeNothing }
    ensures pass { PassesRaiseNothing }
    ensures behind { NoPassIsDueBehindOne }
    ensures both { PassAndFlushLowerTheTotal }
{
    acts_keep_joint();
    marks_are_least();
    pass_collects_exactly();
}

/// A take lowers the total, or finds nothing stored that the sink hasn't taken.
pub fn takes_lower_the_total()
    ensures lower { TakesLowerTheTotal }
    ensures still { OtherTakesChangeNothing }
    ensures all { OtherTakesHaveAll }
{}

/// The failures that follow a write leave less than was left before it.
pub fn failures_lower_the_total()
    ensures rest { FailuresLeaveTheRest }
    ensures lower { FiredFailuresLowerTheTotal }
{}

/// Where nothing is left to do at a vertex, and nothing to store, its stream is stored to the end.
pub fn what_is_over_is_whole()
    ensures { OverIsWhole }
{}

/// What is stored to the end, or taken to the end, stays so.
pub fn whole_stays()
    ensures streams { WholeStreamsStay }
    ensures sinks { TakenSinksStay }
{
    nothing_durable_falls();
}
