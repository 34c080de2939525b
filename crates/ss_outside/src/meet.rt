//! A gate that holds the first worker until another comes.

ghost use Rattle.std.specs.Prelude.{◌≡◌, ◌≤◌, ℕ, false};

use crate::gate::{Gate, Place};
use crate::meeting::Meeting;
use crossbeam_utils::atomic::AtomicCell;
use std::marker::Model;
use std::thread;

/// How many workers have a count of their own.
const COUNTED: usize = 8;

/// A gate that shows that two workers are at work at once: the first worker that comes is held at its first place
/// until another worker was at a place of another tail, or has looked for it `turns` times. With 0 turns nobody
/// is held. It counts how often each of the workers 0 to 7 came.
/// Contracts see the number of turns. No clause tells what threads have left in the cells.
#[derive(Drop)]
pub struct Meet {
    turns: u64,
    meeting: AtomicCell<Meeting>,
    // Who came first, and the vertex whose tail it has. Written while the meeting is `Arriving`.
    worker: AtomicCell<u32>,
    tail: AtomicCell<u32>,
    // By worker. Each count stays at `u64::MAX`.
    calls: [AtomicCell<u64>; COUNTED],
}

impl Model for Meet {
    ghost Value = { ℕ };

    ghost view = { λ m. m.turns };
}

impl Meet {
    /// A gate to which nobody has come. The first worker looks so many times before it is let go.
    pub fn new(turns: u64) -> Meet
        ensures { result ≡ turns }
    {
        Meet {
            turns,
            meeting: AtomicCell::new(Meeting::Empty),
            worker: AtomicCell::new(0),
            tail: AtomicCell::new(0),
            calls: [
                AtomicCell::new(0),
                AtomicCell::new(0),
                AtomicCell::new(0),
                AtomicCell::new(0),
                AtomicCell::new(0),
                AtomicCell::new(0),
                AtomicCell::new(0),
                AtomicCell::new(0),
            ],
        }
    }

    /// Whether another worker came, at another tail, while the first was held.
    pub fn met(&self) -> bool
        ensures { self.now ≡ 0 → result ≡ false }
    {
        self.turns > 0 && self.meeting.load() == Meeting::Met
    }

    /// How often the worker came, of the numbers 0 to 7.
    pub fn calls(&self, worker: u32) -> u64
        ensures { 8 ≤ worker → result ≡ 0 }
    {
        match self.calls.get(worker as usize) {
            Some(calls) => calls.load(),
            None => 0,
        }
    }

    /// Counts a visit of the worker.
    fn count(&self, worker: u32) {
        if let Some(calls) = self.calls.get(worker as usize) {
            let _ = calls.fetch_update(|count| count.checked_add(1));
        }
    }

    /// Holds the first worker until another has met it, or all its looks are spent.
    fn hold(&self, worker: u32, v: u32) {
        self.worker.store(worker);
        self.tail.store(v);
        self.meeting.store(Meeting::Held);
        for _ in 0..self.turns {
            if self.meeting.load() == Meeting::Met {
                return;
            }
            thread::yield_now();
        }
        let _ = self
            .meeting
            .compare_exchange(Meeting::Held, Meeting::Missed);
    }

    /// Lets the first worker go where it is held, and this is another one at another tail. What an arriving worker
    /// writes down is waited for, as many looks as the gate has.
    fn visit(&self, worker: u32, v: u32) {
        for _ in 0..self.turns {
            if self.meeting.load() != Meeting::Arriving {
                break;
            }
            thread::yield_now();
        }
        if self.worker.load() != worker && self.tail.load() != v {
            let _ = self.meeting.compare_exchange(Meeting::Held, Meeting::Met);
        }
    }
}

impl Gate for Meet {
    /// Returns at the latest when its looks are spent.
    fn at(&self, worker: u32, place: Place) {
        self.count(worker);
        if self.turns == 0 {
            return;
        }
        let Place::TailHeld { v } = place;
        let first = self
            .meeting
            .compare_exchange(Meeting::Empty, Meeting::Arriving);
        match first {
            Ok(_) => self.hold(worker, v),
            Err(_) => self.visit(worker, v),
        }
    }
}
