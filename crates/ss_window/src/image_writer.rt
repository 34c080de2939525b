ghost use Rattle.std.specs.Prelude.{◌≡◌, ◌+◌, ◌*◌, ◌^◌, ◌<◌, ◌≤◌, ◌++◌, length, OnOk, OnErr};
ghost use Rattle.std.specs.Prelude.{vec_len, vec_capacity};
ghost use Rattle.std.specs.BTreeMap.{btree_map_len};
ghost use Rattle.std.specs.List.{flat_map};
ghost use Rattle.ss_image.specs.Images.{entry_bytes, window_image};
ghost use Rattle.ss_window.specs.Held.{entries_at, entries_in, entry_of};

use crate::by_end::ByEnd;
use crate::pane::Pane;
use crate::panes::Panes;
use crate::total::Total;
use ss_elem::Key;
use ss_image::{bytes_of_i128, bytes_of_key, bytes_of_u32, bytes_of_u64};
use std::alloc::AllocError;

const COUNT_LEN: usize = 4;

const ENTRY_LEN: usize = 48;

/// Appends the image of the panes. Its room is reserved first, so that it is appended whole or not at all.
pub(crate) fn put_image(out: &mut Vec<u8>, panes: &Panes) -> Result<(), AllocError>
    requires { length panes.now < 2 ^ 32 }
    ensures ok { OnOk result (out.new.items ≡ out.old.items ++ window_image panes.now) }
    ensures err { OnErr result (out.new.items ≡ out.old.items) }
{
    out.reserve(COUNT_LEN + ENTRY_LEN * panes.held() as usize)?;
    put(out, &bytes_of_u32(panes.held() as u32));
    put_panes(out, panes.by_end());
    Ok(())
}

fn put_panes(out: &mut Vec<u8>, by_end: &ByEnd)
    requires { vec_len out.old + 48 * length (entries_in by_end.now.entries) ≤ vec_capacity out.old }
    ensures { out.new.items ≡ out.old.items ++ flat_map entry_bytes (entries_in by_end.now.entries) }
{
    for (end, pane) in by_end {
        put_pane(out, *end, pane);
    }
}

fn put_pane(out: &mut Vec<u8>, end: u64, pane: &Pane)
    requires { vec_len out.old + 48 * btree_map_len pane.now ≤ vec_capacity out.old }
    ensures items { out.new.items ≡ out.old.items ++ flat_map entry_bytes (entries_at end pane.now.entries) }
    ensures len { vec_len out.new ≡ vec_len out.old + 48 * btree_map_len pane.now }
    ensures capacity { vec_capacity out.old ≤ vec_capacity out.new }
{
    for (key, total) in pane {
        put_entry(out, end, key, total);
    }
}

fn put_entry(out: &mut Vec<u8>, end: u64, key: &Key, total: &Total)
    requires { vec_len out.old + 48 ≤ vec_capacity out.old }
    ensures items { out.new.items ≡ out.old.items ++ entry_bytes (entry_of end key.now total.now) }
    ensures len { vec_len out.new ≡ vec_len out.old + 48 }
    ensures capacity { vec_capacity out.old ≤ vec_capacity out.new }
{
    put(out, &bytes_of_u64(end));
    put(out, &bytes_of_key(key));
    put(out, &bytes_of_i128(total.value()));
    put(out, &bytes_of_u64(total.rows()));
}

/// Appends bytes for which there is room.
fn put(out: &mut Vec<u8>, bytes: &[u8])
    requires { vec_len out.old + length bytes.now ≤ vec_capacity out.old }
    ensures items { out.new.items ≡ out.old.items ++ bytes.now }
    ensures len { vec_len out.new ≡ vec_len out.old + length bytes.now }
    ensures capacity { vec_capacity out.old ≤ vec_capacity out.new }
{
    out.extend_from_slice(bytes).unwrap();
}
