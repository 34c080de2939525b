//! What becomes of the worker that came first to a gate.

ghost use Rattle.ss_outside.specs.Meetings.{meeting_number};

use crossbeam_utils::atomic::Word;

/// How far the meeting of the first worker with another is.
#[derive(Clone, Copy, Debug, PartialEq, Eq)]
pub(crate) enum Meeting {
    /// Nobody came.
    Empty,
    /// The first worker came, and is writing down who it is and where.
    Arriving,
    /// The first worker is held.
    Held,
    /// Another worker came while the first was held.
    Met,
    /// The first worker was let go before another came.
    Missed,
}

impl Word for Meeting {
    ghost word = { meeting_number };

    fn to_word(self) -> u64 {
        match self {
            Meeting::Empty => 0,
            Meeting::Arriving => 1,
            Meeting::Held => 2,
            Meeting::Met => 3,
            Meeting::Missed => 4,
        }
    }

    fn from_word(bits: u64) -> Meeting {
        match bits {
            0 => Meeting::Empty,
            1 => Meeting::Arriving,
            2 => Meeting::Held,
            3 => Meeting::Met,
            4 => Meeting::Missed,
            _ => unreachable!(),
        }
    }
}
