ghost use Rattle.ss_meaning.specs.Examples.{WindowsOverlap, RowWhereAWindowEnds, WindowsFarApart};
ghost use Rattle.ss_meaning.specs.Examples.{WindowsAtTheLatestTimes, KeysInOrder, SumTooGreat, SumComesBack};
ghost use Rattle.ss_meaning.specs.Examples.{LeastOfB, SumOfD, JoinGivesOfEachSide, ValuesMove};
ghost use Rattle.ss_meaning.specs.Examples.{RowsJoinWhereTheyOverlap, SpansThatTouchDoNotJoin, JoinWithItself};
ghost use Rattle.ss_meaning.specs.Examples.{ValuesSwap, UnionOfTwo, UnionWithItself, TieOfBounds, JobOfFourIsJob};
ghost use Rattle.ss_meaning.specs.Examples.{JobOfFour};
ghost use Rattle.ss_meaning.specs.EntryExamples.{RowInTwoWindows, EntriesInOrder, NothingAfterEnd};
ghost use Rattle.ss_meaning.specs.EntryExamples.{SidesByTheOtherBound, EntriesAreCounted, NothingElsewhere};
ghost use Rattle.ss_meaning.specs.EntryExamples.{ValuePutAtEachEnd, LaterKeyInItsPlace, EntryBecomesRow};

/// What windows give, on small sources.
pub fn window_examples()
    ensures windows_overlap { WindowsOverlap }
    ensures row_where_a_window_ends { RowWhereAWindowEnds }
    ensures windows_far_apart { WindowsFarApart }
    ensures windows_at_the_latest_times { WindowsAtTheLatestTimes }
    ensures keys_in_order { KeysInOrder }
    ensures sum_too_great { SumTooGreat }
    ensures sum_comes_back { SumComesBack }
    ensures least_of_b { LeastOfB }
    ensures sum_of_d { SumOfD }
{}

/// What joins give, on small sources.
pub fn join_examples()
    ensures rows_join_where_they_overlap { RowsJoinWhereTheyOverlap }
    ensures spans_that_touch_do_not_join { SpansThatTouchDoNotJoin }
    ensures join_with_itself { JoinWithItself }
    ensures join_gives_of_each_side { JoinGivesOfEachSide }
{}

/// What selects and unions give, and the order in which several streams arrive.
pub fn merge_examples()
    ensures values_swap { ValuesSwap }
    ensures values_move { ValuesMove }
    ensures union_of_two { UnionOfTwo }
    ensures union_with_itself { UnionWithItself }
    ensures tie_of_bounds { TieOfBounds }
{}

/// A job that the laws speak of, and what its sink takes.
pub fn job_example()
    ensures is_job { JobOfFourIsJob }
    ensures sink { JobOfFour }
{}

/// What operators remember of what arrived.
pub fn entry_examples()
    ensures row_in_two_windows { RowInTwoWindows }
    ensures entries_in_order { EntriesInOrder }
    ensures nothing_after_end { NothingAfterEnd }
    ensures sides_by_the_other_bound { SidesByTheOtherBound }
    ensures entries_are_counted { EntriesAreCounted }
    ensures nothing_elsewhere { NothingElsewhere }
{}

/// What one more row makes of the entries of a window, and the row that an entry becomes.
pub fn entry_step_examples()
    ensures value_put_at_each_end { ValuePutAtEachEnd }
    ensures later_key_in_its_place { LaterKeyInItsPlace }
    ensures entry_becomes_row { EntryBecomesRow }
{}
