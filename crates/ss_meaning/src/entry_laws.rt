ghost use Rattle.ss_meaning.specs.EntryLaws.{AggregatesGrow, EntriesAfterRow, EntriesAfterRise, RowsAreOfEntries};
ghost use Rattle.ss_meaning.specs.EntryLaws.{EntriesCountRows, EntriesAreInOrder, PutKeepsOrder};

/// The entries of a window after one more arrival are made of those before it: a row is put at each of its ends,
/// and where the bound rises the entries that it reaches go, as the rows that the window gives.
pub fn entries_follow()
    ensures row { EntriesAfterRow }
    ensures rise { EntriesAfterRise }
    ensures given { RowsAreOfEntries }
    ensures grow { AggregatesGrow }
{}

/// The entries of a window stand in order, and each of them is of rows that have arrived.
pub fn entries_are_in_order()
    ensures all { EntriesAreInOrder }
    ensures put { PutKeepsOrder }
    ensures counts { EntriesCountRows }
{}
