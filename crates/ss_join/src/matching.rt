ghost use Rattle.std.specs.Prelude.{◌≡◌};
ghost use Rattle.ss_meaning.specs.Join.{matches};

use ss_elem::Event;

/// Whether two rows have one key and a time in common.
pub fn matches(x: &Event, y: &Event) -> bool
    ensures { result ≡ matches x.now y.now }
{
    x.key == y.key && x.start < y.end && y.start < x.end
}
