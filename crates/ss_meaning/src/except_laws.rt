ghost use Rattle.ss_meaning.specs.ExceptExamples.{RowWithoutItsLike, RowsInOrderOfEnd, LateLeftRows};
ghost use Rattle.ss_meaning.specs.ExceptExamples.{LonelyAndOpenRows};
ghost use Rattle.ss_meaning.specs.ExceptLaws.{EndedRowsNeverMatch, LeftsAfterLeftRow, LeftsAfterRightRow};
ghost use Rattle.ss_meaning.specs.ExceptLaws.{ReachedRowsAreGiven, NoneGivenWithoutRise, EndedRowsAreCounted};

/// The left rows that a join by absence remembers follow from those that it remembered before, and so do those that it
/// gives.
pub fn absent_rows_follow()
    ensures ended { EndedRowsNeverMatch }
    ensures left { LeftsAfterLeftRow }
    ensures right { LeftsAfterRightRow }
    ensures given { ReachedRowsAreGiven }
    ensures none { NoneGivenWithoutRise }
    ensures count { EndedRowsAreCounted }
{}

/// What joins by absence give and remember, on small sources.
pub fn except_examples()
    ensures without_its_like { RowWithoutItsLike }
    ensures in_order_of_end { RowsInOrderOfEnd }
    ensures late { LateLeftRows }
    ensures remembered { LonelyAndOpenRows }
{}
