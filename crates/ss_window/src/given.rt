ghost use Rattle.std.specs.Prelude.{◌≡◌, ◌+◌, ◌^◌, ◌≤◌, ◌++◌, length};
ghost use Rattle.ss_window.specs.States.{left, reached, rows_of_entries};

use crate::pane::give;
use crate::panes::Panes;
use ss_elem::Out;

/// Takes out the panes whose ends are up to `low`, appends the rows that they become, and leaves a place.
pub(crate) fn give_reached(panes: &mut Panes, hop: u64, low: u64, out: &mut Out)
    requires hop { hop ≤ 2 ^ 40 }
    requires low { low ≤ 2 ^ 63 }
    requires room { length (reached low panes.old) + 1 ≤ out.old.spare }
    ensures given { out.new.elements ≡ out.old.elements ++ rows_of_entries hop (reached low panes.old) }
    ensures left { panes.new ≡ left low panes.old }
    ensures place { 1 ≤ out.new.spare }
{
    while let Some((end, pane)) = panes.pop_reached(low) {
        give(end, &pane, hop, out);
    }
}
