ghost use Rattle.std.specs.Prelude.{◌≡◌, ◌+◌, ◌-◌, ◌*◌, ◌^◌, ◌<◌, ◌≤◌, All, OnOk, OnErr};
ghost use Rattle.ss_meaning.specs.EntryLists.{put_values};
ghost use Rattle.ss_window.specs.Held.{ends_left, join_of};

use crate::panes::Panes;
use ss_elem::Key;
use ss_expr::Agg;
use std::alloc::AllocError;

/// Puts the value of a row at each multiple of hop above `low`, from the one with the number `from` up to and
/// without that of the number `to`. Where memory runs out all is as before.
pub(crate) fn put_all(
    panes: &mut Panes,
    hop: u64,
    from: u64,
    to: u64,
    low: u64,
    key: &Key,
    value: i64,
    agg: Agg,
) -> Result<(), AllocError>
    requires near { hop * to ≤ 2 ^ 63 + 2 ^ 47 }
    requires ends { to - from ≤ 64 }
    requires few { All (λ e. e.rows + (to - from) < 2 ^ 63) panes.old }
    ensures ok { OnOk result (panes.new
        ≡ put_values (join_of agg) key.now value (ends_left hop from to low) panes.old) }
    ensures err { OnErr result (panes.new ≡ panes.old) }
{
    if from >= to {
        return Ok(());
    }
    let end = hop * from;
    if end <= low {
        return put_all(panes, hop, from + 1, to, low, key, value, agg);
    }
    let had = panes.put(end, key, value, agg)?;
    match put_all(panes, hop, from + 1, to, low, key, value, agg) {
        Ok(()) => Ok(()),
        Err(error) => {
            panes.restore(end, key, &had);
            Err(error)
        }
    }
}
