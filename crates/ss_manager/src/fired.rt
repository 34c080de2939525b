ghost use Rattle.std.specs.Prelude.{◌≡◌, MatchOption};
ghost use Rattle.ss_manager.specs.Fired.{IsNextFired, NoneFires, fires as fires_of};

use ss_fail::Trigger;

/// The first trigger at or above `start` that the write fires by which stream `v` has counted `stored` elements.
pub fn next_fired(triggers: &[Trigger], start: usize, v: u32, stored: u64) -> Option<usize>
    ensures { MatchOption result (NoneFires triggers.now start v stored)
        (IsNextFired triggers.now start v stored) }
{
    for i in start..triggers.len() {
        if fires(&triggers[i], v, stored) {
            return Some(i);
        }
    }
    None
}

/// Whether that write fires it.
fn fires(trigger: &Trigger, v: u32, stored: u64) -> bool
    ensures { result ≡ fires_of trigger.now v stored }
{
    trigger.v == v && trigger.count == stored
}
