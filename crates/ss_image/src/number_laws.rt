ghost use Rattle.ss_image.specs.NumberLaws.{NumbersAreReadAgain, NumbersHaveOneSpelling};

/// Numbers that fit their bytes, and keys, are read again from where they stand.
pub fn numbers_are_read_again()
    ensures { NumbersAreReadAgain }
{}

/// Where a number or a key is read stand its bytes and no others.
pub fn numbers_have_one_spelling()
    ensures { NumbersHaveOneSpelling }
{}
