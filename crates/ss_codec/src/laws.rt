ghost use Rattle.ss_codec.specs.Laws.{FramesAreReadAgain, FramesHaveLengths, NoFrameBeginsAnother};
ghost use Rattle.ss_codec.specs.Laws.{NoRecordBeginsAnother, OldRecordsAreRead, RecordsAreReadAgain};

/// A record is read as its element, so what was put is read again.
pub fn records_are_read_again()
    ensures { RecordsAreReadAgain }
{}

/// A record that was written when rows had two values is read: it is the record of the row with 0 for the others.
pub fn old_records_are_read()
    ensures { OldRecordsAreRead }
{}

/// No record is a proper part of another from the front on, so a record that lacks its end isn't taken for one.
pub fn no_record_begins_another()
    ensures { NoRecordBeginsAnother }
{}

/// The code of a frame is read as the frame, where what stands at and above its width is 0.
pub fn frames_are_read_again()
    ensures { FramesAreReadAgain }
{}

/// No frame's code is a proper part of another from the front on.
pub fn no_frame_begins_another()
    ensures { NoFrameBeginsAnother }
{}

/// How long the code of a frame is.
pub fn frames_have_lengths()
    ensures { FramesHaveLengths }
{}
