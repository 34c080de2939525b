ghost use Rattle.ss_meaning.specs.Laws.{BoundOfValid, MergeKeepsEachInput, ArrivalsFollow, ArrivalsMayFollow};
ghost use Rattle.ss_meaning.specs.Laws.{LeastBoundGoesNext, LowIsBelowBounds, LowNeverFalls, LowIsTopAtTheEnd};
ghost use Rattle.ss_meaning.specs.Laws.{WindowEndsHaveRows, WindowKeysHaveRows};
ghost use Rattle.ss_meaning.specs.Laws.{OutputGrowsByEmit, OutputOnlyGrows, PositionsAddUp, PositionsNeverFall};
ghost use Rattle.ss_meaning.specs.Laws.{OutNeverFalls, OutAtTheEnd, MeaningByInputs, MeaningIsWhole, MeaningIsEarly};
ghost use Rattle.ss_meaning.specs.Laws.{BoundsAfterArrival, CountsAfterArrival, LowIsTheLeastBound};
ghost use Rattle.ss_meaning.specs.Laws.{NextInputArrives, SortedIsInOrder};
ghost use Rattle.ss_meaning.specs.SessionRows.{SessionsAreOfRows, ClosedAreByTime, ClosedAreCounted};

/// The bound of a list that keeps the rules of a stream is the one that those rules keep track of.
pub fn bound_is_that_of_valid_lists()
    ensures { BoundOfValid }
{}

/// A merge of whole streams has exactly their elements, those of each input in their order.
pub fn merge_keeps_each_input()
    ensures all { MergeKeepsEachInput }
    ensures next { ArrivalsFollow }
    ensures follows { ArrivalsMayFollow }
{}

/// A merge goes on with the input of the least bound, and of equal bounds with the lowest input.
pub fn least_bound_goes_next()
    ensures { LeastBoundGoesNext }
{}

/// The least of the inputs' bounds never falls, and is above every time just where all has arrived.
pub fn low_never_falls()
    ensures least { LowIsBelowBounds }
    ensures rises { LowNeverFalls }
    ensures end { LowIsTopAtTheEnd }
{}

/// A window is given at each of its ends that has a row, and there for each key of those rows.
pub fn windows_with_rows_are_given()
    ensures ends { WindowEndsHaveRows }
    ensures keys { WindowKeysHaveRows }
{}

/// A session begins and ends where rows start, and counts no more rows than there are.
pub fn sessions_are_of_rows()
    ensures { SessionsAreOfRows }
{}

/// The sessions that close in a span of time are given in the order in which they close.
pub fn sessions_close_in_time()
    ensures order { ClosedAreByTime }
    ensures count { ClosedAreCounted }
{}

/// What is given for one more arrival comes behind what was given before it.
pub fn output_only_grows()
    ensures step { OutputGrowsByEmit }
    ensures prefix { OutputOnlyGrows }
{}

/// The counts of a vertex's inputs add up to the elements that it has taken.
pub fn positions_add_up()
    ensures { PositionsAddUp }
{}

/// The counts of a vertex never fall as it takes more, and end with its whole stream.
pub fn counts_never_fall()
    ensures pos { PositionsNeverFall }
    ensures out { OutNeverFalls }
    ensures end { OutAtTheEnd }
{}

/// The stream of each vertex is what the vertex makes of the streams that it reads.
pub fn meaning_is_made_of_the_inputs()
    ensures { MeaningByInputs }
{}

/// The stream of each vertex of each job keeps the rules of a stream, ends, and has times below 2^63.
pub fn meaning_is_whole()
    ensures { MeaningIsWhole }
{}

/// The times of each vertex's stream are so far below 2^63 that no operator's own times pass it.
pub fn meaning_is_early()
    ensures { MeaningIsEarly }
{}

/// The bounds of the inputs tell how far all of them have come and which one goes next, and each arrival changes
/// the bound and the count of its own input alone.
pub fn bounds_tell_what_is_next()
    ensures bounds { BoundsAfterArrival }
    ensures counts { CountsAfterArrival }
    ensures low { LowIsTheLeastBound }
    ensures next { NextInputArrives }
{}

/// A stable sort of segments by bound and input gives the order in which a merge takes them.
pub fn sorted_is_in_order()
    ensures { SortedIsInOrder }
{}
