ghost use Rattle.ss_window.specs.ImageExamples.{TwoEntriesSpelled, HundredBytes, NegativeSpelled, TwoEntriesRead};
ghost use Rattle.ss_window.specs.ImageExamples.{OneByteFewer, FirstClosed};
ghost use Rattle.ss_window.specs.ImageLaws.{EntriesAreReadAgain, StatesAreReadAgain};

use ss_image::numbers_are_read_again;
use ss_meaning::entries_are_in_order;

/// Images of small windows, and what bytes near them say.
pub fn image_examples()
    ensures two_entries { TwoEntriesSpelled }
    ensures hundred_bytes { HundredBytes }
    ensures negative { NegativeSpelled }
    ensures read { TwoEntriesRead }
    ensures one_byte_fewer { OneByteFewer }
    ensures first_closed { FirstClosed }
{}

/// What a window remembers is read from its image, where its windows end below 2^63.
pub fn images_are_read_again()
    ensures entries { EntriesAreReadAgain }
    ensures states { StatesAreReadAgain }
{
    numbers_are_read_again();
    entries_are_in_order();
}
