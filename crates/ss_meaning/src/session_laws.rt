ghost use Rattle.ss_meaning.specs.SessionExamples.{TwoSessions, RowBetweenTwoSessions, SessionsInOrder};
ghost use Rattle.ss_meaning.specs.SessionExamples.{GapParts, PutBetweenTwo};
ghost use Rattle.ss_meaning.specs.SessionKeys.{OpenSessionsGoByKeys, SessionRowsGoByKeys};
ghost use Rattle.ss_meaning.specs.SessionLaws.{AggregatesJoin, SessionsAfterRow, SessionsAfterRise};
ghost use Rattle.ss_meaning.specs.SessionLaws.{RowsAreOfSessions, SessionsAreApart, PutKeepsApart};
ghost use Rattle.ss_meaning.specs.SessionLaws.{PutJoinsAtMostTwo};

/// The sessions that are open after one more arrival are made of those before it: a row is put in its place, and
/// where the bound rises the sessions that it closes go, as the rows that the session window gives.
pub fn sessions_follow()
    ensures row { SessionsAfterRow }
    ensures rise { SessionsAfterRise }
    ensures given { RowsAreOfSessions }
    ensures join { AggregatesJoin }
{}

/// The sessions that are open stand in order and apart, and each of them is of rows that have arrived.
pub fn sessions_are_apart()
    ensures all { SessionsAreApart }
    ensures put { PutKeepsApart }
    ensures two { PutJoinsAtMostTwo }
{}

/// Session windows go by keys: what they remember and give of the rows of some keys alone is what they remember and
/// give of these keys.
pub fn sessions_go_by_keys()
    ensures opened { OpenSessionsGoByKeys }
    ensures given { SessionRowsGoByKeys }
{}

/// What session windows give and remember, on small sources.
pub fn session_examples()
    ensures two_sessions { TwoSessions }
    ensures row_between_two_sessions { RowBetweenTwoSessions }
    ensures sessions_in_order { SessionsInOrder }
    ensures gap_parts { GapParts }
    ensures put_between_two { PutBetweenTwo }
{}
