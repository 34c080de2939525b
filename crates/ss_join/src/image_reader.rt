ghost use Rattle.std.specs.Prelude.{◌≡◌, ◌+◌, ◌*◌, ◌^◌, ◌<◌, ◌≤◌, Ok, Some, length, IfOk, IfErr};
ghost use Rattle.ss_image.specs.Faults.{Fails};
ghost use Rattle.ss_image.specs.Images.{row_len};
ghost use Rattle.ss_join.specs.ImageTests.{form_in, has_whole_rows, image_read, is_open_span, row_count, row_read, rows_read};
ghost use Rattle.ss_join.specs.ImageTests.{say_two_values, sides_read, wide_value};

use ss_elem::Event;
use ss_image::{ImageFault, RowForm, i64_at, read_key, u32_at, u64_at};
use std::alloc::Global;

const COUNTS_LEN: usize = 8;

const WIDE_LEN: usize = 64;

const TOP_TIME: u64 = 1 << 63;

/// The left and the right rows whose image the bytes are.
pub fn read_image(
    alloc: Global,
    bounds: [u64; 8],
    bytes: &[u8],
) -> Result<(Vec<Event>, Vec<Event>), ImageFault>
    ensures ok { IfOk result (λ v. image_read bounds bytes.now ≡ Ok (record { left = v.0.items; right = v.1.items })) }
    ensures fault { IfErr result (λ fault. Fails fault (image_read bounds bytes.now)) }
{
    match form_in(bytes) {
        Some(form) => read_sides(alloc, form, bounds, bytes),
        None => Err(ImageFault::At { at: 0 }),
    }
}

/// The form in which rows stand behind the counts, where the length fits one and the wide one is needed.
fn form_in(bytes: &[u8]) -> Option<RowForm>
    ensures { result ≡ form_in bytes.now }
{
    if bytes.len() < COUNTS_LEN {
        return None;
    }
    if has_whole_rows(RowForm::Narrow, bytes) {
        return Some(RowForm::Narrow);
    }
    if has_whole_rows(RowForm::Wide, bytes)
        && !say_two_values(row_count(bytes), &bytes[COUNTS_LEN..])
    {
        return Some(RowForm::Wide);
    }
    None
}

fn row_count(bytes: &[u8]) -> usize
    requires { 8 ≤ length bytes.now }
    ensures count { result ≡ row_count bytes.now }
    ensures few { result < 2 ^ 33 }
{
    u32_at(bytes, 0) as usize + u32_at(bytes, 4) as usize
}

fn has_whole_rows(form: RowForm, bytes: &[u8]) -> bool
    requires { 8 ≤ length bytes.now }
    ensures { result ≡ has_whole_rows form bytes.now }
{
    bytes.len() == COUNTS_LEN + form.row_len() * row_count(bytes)
}

/// Whether the third and the fourth value are 0 in each of so many rows of 64 bytes.
fn say_two_values(count: usize, bytes: &[u8]) -> bool
    requires { 64 * count ≤ length bytes.now }
    ensures { result ≡ say_two_values count bytes.now }
{
    for number in 0..count {
        let row = &bytes[WIDE_LEN * number..];
        if u64_at(row, 48) != 0 || u64_at(row, 56) != 0 {
            return false;
        }
    }
    true
}

/// The left and the right rows that stand behind the counts in this form.
fn read_sides(
    alloc: Global,
    form: RowForm,
    bounds: [u64; 8],
    bytes: &[u8],
) -> Result<(Vec<Event>, Vec<Event>), ImageFault>
    requires { form_in bytes.now ≡ Some form }
    ensures ok { IfOk result (λ v.
        sides_read bounds bytes.now form ≡ Ok (record { left = v.0.items; right = v.1.items })) }
    ensures fault { IfErr result (λ fault. Fails fault (sides_read bounds bytes.now form)) }
{
    let left_count = u32_at(bytes, 0) as usize;
    let right_count = u32_at(bytes, 4) as usize;
    let right_place = COUNTS_LEN + form.row_len() * left_count;
    let left = read_rows(
        alloc,
        form,
        bounds[1],
        left_count,
        COUNTS_LEN,
        &bytes[COUNTS_LEN..],
    )?;
    let right = read_rows(
        alloc,
        form,
        bounds[0],
        right_count,
        right_place,
        &bytes[right_place..],
    )?;
    Ok((left, right))
}

/// So many rows, the first of which stands at this place of an image.
fn read_rows(
    alloc: Global,
    form: RowForm,
    bound: u64,
    count: usize,
    at: usize,
    bytes: &[u8],
) -> Result<Vec<Event>, ImageFault>
    requires whole { row_len form * count ≤ length bytes.now }
    requires near { at + row_len form * count ≤ 2 ^ 62 }
    ensures ok { IfOk result (λ v. rows_read form bound count at bytes.now ≡ Ok v.items) }
    ensures fault { IfErr result (λ fault. Fails fault (rows_read form bound count at bytes.now)) }
{
    let mut rows = Vec::new(alloc);
    for number in 0..count {
        let place = form.row_len() * number;
        match read_row(form, bound, &bytes[place..]) {
            Some(row) => rows.push(row)?,
            None => {
                return Err(ImageFault::At {
                    at: (at + place) as u64,
                });
            }
        }
    }
    Ok(rows)
}

/// The row that the first bytes say in this form, where it passes each test.
#[tactic(auto, unfolding(crate::specs::ImageTests::row_read))]
fn read_row(form: RowForm, bound: u64, bytes: &[u8]) -> Option<Event>
    requires { row_len form ≤ length bytes.now }
    ensures { result ≡ row_read form bound bytes.now }
{
    let key = read_key(&bytes[16..32])?;
    let start = u64_at(bytes, 0);
    let end = u64_at(bytes, 8);
    let a = i64_at(bytes, 32);
    let b = i64_at(bytes, 40);
    let c = wide_value(form, 48, bytes);
    let d = wide_value(form, 56, bytes);
    if is_open_span(bound, start, end) {
        Some(Event {
            start,
            end,
            key,
            a,
            b,
            c,
            d,
        })
    } else {
        None
    }
}

/// The value at a place of a row that its form may not have: 0 then.
fn wide_value(form: RowForm, place: usize, bytes: &[u8]) -> i64
    requires whole { row_len form ≤ length bytes.now }
    requires within { place + 8 ≤ 64 }
    ensures { result ≡ wide_value form place bytes.now }
{
    match form {
        RowForm::Narrow => 0,
        RowForm::Wide => i64_at(bytes, place),
    }
}

fn is_open_span(bound: u64, start: u64, end: u64) -> bool
    ensures { result ≡ is_open_span bound start end }
{
    start < end && end < TOP_TIME && bound < end
}
