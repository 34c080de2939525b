ghost use Rattle.ss_oper.specs.Laws.{ImagesAreReadAgain};

use ss_meaning::merge_keeps_each_input;

/// What an operator remembers of a merge is read again from its image.
pub fn images_are_read_again()
    ensures { ImagesAreReadAgain }
{
    merge_keeps_each_input();
    ss_window::images_are_read_again();
    ss_join::images_are_read_again();
    ss_session::images_are_read_again();
}
