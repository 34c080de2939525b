ghost use Rattle.ss_join.specs.ImageExamples.{OneRowSpelled, FiftySixBytes, NegativeSpelled, OneRowRead};
ghost use Rattle.ss_join.specs.ImageExamples.{OneByteFewer, EndedRow};
ghost use Rattle.ss_join.specs.ImageExamples.{WideRowsSpelled, WideRowsRead, WideWithoutNeed, NeitherForm, NoRowsRead};
ghost use Rattle.ss_join.specs.ImageExamples.{WideRowEnded, NarrowAgain};
ghost use Rattle.ss_join.specs.ImageLaws.{SidesAreReadAgain, NarrowImagesAreRead, StatesAreReadAgain};
ghost use Rattle.ss_join.specs.ImageLaws.{StatesAreReadAgainAs, ImagesHaveEarlyRows, ImagesHaveOneSpelling};
ghost use Rattle.ss_meaning.specs.Emit.{Except};

use ss_image::{numbers_are_read_again, numbers_have_one_spelling};

/// Images of small joins, and what bytes near them say.
pub fn image_examples()
    ensures one_row { OneRowSpelled }
    ensures fifty_six_bytes { FiftySixBytes }
    ensures negative { NegativeSpelled }
    ensures read { OneRowRead }
    ensures one_byte_fewer { OneByteFewer }
    ensures ended { EndedRow }
{}

/// Images of joins that remember a row of four values, and of those that remember none.
pub fn wide_image_examples()
    ensures spelled { WideRowsSpelled }
    ensures read { WideRowsRead }
    ensures without_need { WideWithoutNeed }
    ensures neither { NeitherForm }
    ensures no_rows { NoRowsRead }
    ensures ended { WideRowEnded }
    ensures narrow_again { NarrowAgain }
{}

/// What a join or a join by absence remembers is read from its image, where its rows may follow in streams.
pub fn images_are_read_again()
    ensures sides { SidesAreReadAgain }
    ensures narrow { NarrowImagesAreRead }
    ensures states { StatesAreReadAgain }
    ensures absence { StatesAreReadAgainAs Except }
{
    numbers_are_read_again();
}

/// The rows that an image says have times below 2^63.
pub fn images_have_early_rows()
    ensures { ImagesHaveEarlyRows }
{}

/// Bytes that say rows are the image of those rows.
pub fn images_have_one_spelling()
    ensures { ImagesHaveOneSpelling }
{
    numbers_have_one_spelling();
}
