ghost use Rattle.ss_session.specs.ImageLaws.{StatesAreReadAgain};
ghost use Rattle.ss_session.specs.SessionImageExamples.{TwoSessionsSpelled, NegativeSpelled, TwoSessionsRead};
ghost use Rattle.ss_session.specs.SessionImageExamples.{OneByteFewer, FirstClosed, NotApart};

use ss_image::numbers_are_read_again;
use ss_meaning::{sessions_are_apart, sessions_are_of_rows, sessions_follow};

/// What a session window remembers is read from its image, where the rows start below 2^62 + 2^60.
pub fn images_are_read_again()
    ensures { StatesAreReadAgain }
{
    numbers_are_read_again();
    sessions_follow();
    sessions_are_apart();
    sessions_are_of_rows();
}

/// Images of small session windows, and what bytes near them say.
pub fn session_image_examples()
    ensures two_sessions { TwoSessionsSpelled }
    ensures negative { NegativeSpelled }
    ensures read { TwoSessionsRead }
    ensures one_byte_fewer { OneByteFewer }
    ensures first_closed { FirstClosed }
    ensures not_apart { NotApart }
{}
