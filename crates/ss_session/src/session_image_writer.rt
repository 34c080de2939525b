ghost use Rattle.std.specs.Prelude.{◌≡◌, ◌+◌, ◌*◌, ◌^◌, ◌<◌, ◌≤◌, ◌++◌, length, OnOk, OnErr};
ghost use Rattle.std.specs.Prelude.{vec_len, vec_capacity};
ghost use Rattle.std.specs.List.{flat_map};
ghost use Rattle.ss_image.specs.Images.{session_bytes, session_image};

use crate::session_entry::Entry;
use ss_image::{bytes_of_i128, bytes_of_key, bytes_of_u32, bytes_of_u64};
use std::alloc::AllocError;

const COUNT_LEN: usize = 4;

const ENTRY_LEN: usize = 56;

/// Appends the image of the sessions. Its room is reserved first, so that it is appended whole or not at all.
pub(crate) fn put_image(out: &mut Vec<u8>, entries: &[Entry]) -> Result<(), AllocError>
    requires { length entries.now < 2 ^ 32 }
    ensures ok { OnOk result (out.new.items ≡ out.old.items ++ session_image entries.now) }
    ensures err { OnErr result (out.new.items ≡ out.old.items) }
{
    out.reserve(COUNT_LEN + ENTRY_LEN * entries.len())?;
    put(out, &bytes_of_u32(entries.len() as u32));
    put_entries(out, entries);
    Ok(())
}

fn put_entries(out: &mut Vec<u8>, entries: &[Entry])
    requires { vec_len out.old + 56 * length entries.now ≤ vec_capacity out.old }
    ensures { out.new.items ≡ out.old.items ++ flat_map session_bytes entries.now }
{
    for entry in entries {
        put_entry(out, entry);
    }
}

fn put_entry(out: &mut Vec<u8>, entry: &Entry)
    requires { vec_len out.old + 56 ≤ vec_capacity out.old }
    ensures items { out.new.items ≡ out.old.items ++ session_bytes entry.now }
    ensures len { vec_len out.new ≡ vec_len out.old + 56 }
    ensures capacity { vec_capacity out.old ≤ vec_capacity out.new }
{
    put(out, &bytes_of_key(&entry.key()));
    put(out, &bytes_of_u64(entry.first()));
    put(out, &bytes_of_u64(entry.last()));
    put(out, &bytes_of_i128(entry.value()));
    put(out, &bytes_of_u64(entry.rows()));
}

/// Appends bytes for which there is room.
fn put(out: &mut Vec<u8>, bytes: &[u8])
    requires { vec_len out.old + length bytes.now ≤ vec_capacity out.old }
    ensures items { out.new.items ≡ out.old.items ++ bytes.now }
    ensures len { vec_len out.new ≡ vec_len out.old + length bytes.now }
    ensures capacity { vec_capacity out.old ≤ vec_capacity out.new }
{
    out.extend_from_slice(bytes).unwrap();
}
