ghost use Rattle.std.specs.Prelude.{◌≡◌, ◌+◌, ◌*◌, ◌^◌, ◌<◌, ◌≤◌, ◌++◌, length, OnOk, OnErr};
ghost use Rattle.std.specs.Prelude.{vec_len, vec_capacity};
ghost use Rattle.std.specs.Int.{w64, cast_unsigned};
ghost use Rattle.std.specs.List.{flat_map};
ghost use Rattle.ss_image.specs.Numbers.{number_bytes};
ghost use Rattle.ss_image.specs.Images.{narrow_bytes, row_bytes, row_len, join_image};

use ss_elem::Event;
use ss_image::{RowForm, bytes_of_i64, bytes_of_key, bytes_of_u32, bytes_of_u64};
use std::alloc::AllocError;

const COUNTS_LEN: usize = 8;

/// Appends the image of the two sides. Its room is reserved first, so that it is appended whole or not at all.
pub fn put_image(out: &mut Vec<u8>, left: &[Event], right: &[Event]) -> Result<(), AllocError>
    requires { length left.now + length right.now < 2 ^ 32 }
    ensures ok { OnOk result (out.new.items ≡ out.old.items ++ join_image left.now right.now) }
    ensures err { OnErr result (out.new.items ≡ out.old.items) }
{
    let form = RowForm::of_sides(left, right);
    out.reserve(COUNTS_LEN + form.row_len() * (left.len() + right.len()))?;
    put(out, &bytes_of_u32(left.len() as u32));
    put(out, &bytes_of_u32(right.len() as u32));
    put_rows(out, form, left);
    put_rows(out, form, right);
    Ok(())
}

fn put_rows(out: &mut Vec<u8>, form: RowForm, rows: &[Event])
    requires { vec_len out.old + row_len form * length rows.now ≤ vec_capacity out.old }
    ensures items { out.new.items ≡ out.old.items ++ flat_map (row_bytes form) rows.now }
    ensures len { vec_len out.new ≡ vec_len out.old + row_len form * length rows.now }
    ensures capacity { vec_capacity out.old ≤ vec_capacity out.new }
{
    for row in rows {
        put_row(out, form, row);
    }
}

fn put_row(out: &mut Vec<u8>, form: RowForm, row: &Event)
    requires { vec_len out.old + row_len form ≤ vec_capacity out.old }
    ensures items { out.new.items ≡ out.old.items ++ row_bytes form row.now }
    ensures len { vec_len out.new ≡ vec_len out.old + row_len form }
    ensures capacity { vec_capacity out.old ≤ vec_capacity out.new }
{
    put_narrow(out, row);
    match form {
        RowForm::Narrow => (),
        RowForm::Wide => {
            put_value(out, third_value(row));
            put_value(out, fourth_value(row));
        }
    }
}

fn put_narrow(out: &mut Vec<u8>, row: &Event)
    requires { vec_len out.old + 48 ≤ vec_capacity out.old }
    ensures items { out.new.items ≡ out.old.items ++ narrow_bytes row.now }
    ensures len { vec_len out.new ≡ vec_len out.old + 48 }
    ensures capacity { vec_capacity out.old ≤ vec_capacity out.new }
{
    put(out, &bytes_of_u64(row.start));
    put(out, &bytes_of_u64(row.end));
    put(out, &bytes_of_key(&row.key));
    put_value(out, first_value(row));
    put_value(out, second_value(row));
}

fn put_value(out: &mut Vec<u8>, value: i64)
    requires { vec_len out.old + 8 ≤ vec_capacity out.old }
    ensures items { out.new.items ≡ out.old.items ++ number_bytes 8 (cast_unsigned w64 value) }
    ensures len { vec_len out.new ≡ vec_len out.old + 8 }
    ensures capacity { vec_capacity out.old ≤ vec_capacity out.new }
{
    put(out, &bytes_of_i64(value));
}

fn first_value(row: &Event) -> i64
    ensures { result ≡ row.now.a }
{
    row.a
}

fn second_value(row: &Event) -> i64
    ensures { result ≡ row.now.b }
{
    row.b
}

fn third_value(row: &Event) -> i64
    ensures { result ≡ row.now.c }
{
    row.c
}

fn fourth_value(row: &Event) -> i64
    ensures { result ≡ row.now.d }
{
    row.d
}

/// Appends bytes for which there is room.
fn put(out: &mut Vec<u8>, bytes: &[u8])
    requires { vec_len out.old + length bytes.now ≤ vec_capacity out.old }
    ensures items { out.new.items ≡ out.old.items ++ bytes.now }
    ensures len { vec_len out.new ≡ vec_len out.old + length bytes.now }
    ensures capacity { vec_capacity out.old ≤ vec_capacity out.new }
{
    out.extend_from_slice(bytes).unwrap();
}
