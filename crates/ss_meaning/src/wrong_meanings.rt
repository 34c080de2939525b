ghost use Rattle.ss_meaning.specs.WrongMeanings.{WaitingLongestDiffers, RowsAtTheEndDiffer, WindowsAtEachCtiDiffer};
ghost use Rattle.ss_meaning.specs.WrongMeanings.{PruningByOwnBoundDiffers, EndingWithTheFirstDiffers};

/// Meanings that come near the right one, and an example on which each of them differs from it.
pub fn wrong_meanings_differ()
    ensures waits_longest { WaitingLongestDiffers }
    ensures windows_with_rows_at_the_end { RowsAtTheEndDiffer }
    ensures windows_at_each_cti { WindowsAtEachCtiDiffer }
    ensures prunes_by_own_bound { PruningByOwnBoundDiffers }
    ensures ends_with_the_first { EndingWithTheFirstDiffers }
{}
