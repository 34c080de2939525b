ghost use Rattle.ss_image.specs.Laws.{WindowImagesHaveLengths, SessionImagesHaveLengths, JoinImagesHaveLengths};
ghost use Rattle.ss_image.specs.Laws.{JoinImagesAreShort};

/// An image is as long as its entries are many.
pub fn images_have_lengths()
    ensures window { WindowImagesHaveLengths }
    ensures session { SessionImagesHaveLengths }
    ensures join { JoinImagesHaveLengths }
    ensures short { JoinImagesAreShort }
{}
