ghost use Rattle.std.specs.Prelude.{◌≡◌, ◌+◌, ◌-◌, ◌≤◌, ◌<◌, ◌++◌, ◌≢◌, List, ℕ, [], length, take, drop, IfOk, OnOk};
ghost use Rattle.std.specs.Prelude.{IsErr, Ok};
ghost use Rattle.std.specs.Result.{result_err, result_ok};
ghost use Rattle.std.specs.List.{take_while};
ghost use Rattle.ss_elem.specs.declared.element.Element.{Element};
ghost use Rattle.ss_elem.specs.Key.{is_not_zero};
ghost use Rattle.ss_codec.specs.Record.{HasRecord, record_bytes};
ghost use Rattle.ss_codec.specs.RecordTests.{element_at, key_in, long_row_at, record_read, row_at, row_tests};
ghost use Rattle.ss_codec.specs.RecordTests.{value_tests, FourValues, TheEnd, Time, TwoValues};
ghost use Rattle.ss_codec.specs.Tests.{first_fault, name_tests, seal_tests};

use crate::fault::CodecFault;
use crate::numbers::{bytes_of_key, i64_at, u32_at, u64_at};
use crate::record::{LONG_FORM, RECORD_FORM};
use sha2::{Digest, Sha256};
use ss_elem::{Element, Event, Key};

const TOP_TIME: u64 = 1 << 63;

const DIGEST_LEN: usize = 32;

const KEY_LEN: usize = 16;

/// The element whose record for `v` and `n` the bytes are; else the first thing that is wrong with them.
pub fn get_element(bytes: &[u8], v: u32, n: u64) -> Result<Element, CodecFault>
    // What is read has a record, and it is these bytes.
    ensures ok { IfOk result (λ x. HasRecord x × (bytes.now ≡ record_bytes v n x)) }
    // Bytes that are a record are read as its element.
    ensures read { (x : Element) → HasRecord x → bytes.now ≡ record_bytes v n x → result ≡ Ok x }
    // Bytes that lack the end of a record are refused.
    ensures short { (x : Element) (rest : List ℕ) → record_bytes v n x ≡ bytes.now ++ rest → rest ≢ [] → IsErr result }
    // Which fault it is: that of the first test which isn't passed.
    ensures exact { result ≡ record_read v n bytes.now }
{
    read_record(bytes, v, n)
}

#[tactic(auto, unfolding(crate::specs::RecordTests::record_read))]
fn read_record(bytes: &[u8], v: u32, n: u64) -> Result<Element, CodecFault>
    ensures { result ≡ record_read v n bytes.now }
{
    match bytes {
        [] | [_] => Err(CodecFault::Short {
            have: bytes.len() as u64,
            want: 2,
        }),
        [RECORD_FORM, 0, ..] => {
            check_seal(bytes, 94)?;
            check_name(bytes, v, n)?;
            read_row(bytes)
        }
        [RECORD_FORM, 1, ..] => {
            check_seal(bytes, 54)?;
            check_name(bytes, v, n)?;
            read_cti(bytes)
        }
        [RECORD_FORM, 2, ..] => {
            check_seal(bytes, 46)?;
            check_name(bytes, v, n)?;
            read_end(bytes)
        }
        [LONG_FORM, 0, ..] => {
            check_seal(bytes, 110)?;
            check_name(bytes, v, n)?;
            read_long_row(bytes)
        }
        [RECORD_FORM | LONG_FORM, _, ..] => Err(CodecFault::BadTag { at: 1 }),
        [_, _, ..] => Err(CodecFault::BadTag { at: 0 }),
    }
}

/// That there are just so many bytes, and that the last 32 are the digest of those before them.
pub(crate) fn check_seal(bytes: &[u8], len: usize) -> Result<(), CodecFault>
    requires { 32 ≤ len }
    ensures fault { result_err result ≡ first_fault (seal_tests len bytes.now) }
    ensures len { OnOk result (length bytes.now ≡ len) }
{
    if bytes.len() < len {
        return Err(CodecFault::Short {
            have: bytes.len() as u64,
            want: len as u64,
        });
    }
    if bytes.len() > len {
        return Err(CodecFault::Extra { at: len as u64 });
    }
    let (front, back) = bytes.split_at(len - DIGEST_LEN);
    let mut kept = [0; DIGEST_LEN];
    kept.copy_from_slice(back);
    let found = Sha256::digest(front);
    if kept != found {
        return Err(CodecFault::BadDigest { kept, found });
    }
    Ok(())
}

/// That the bytes are of this vertex and number.
pub(crate) fn check_name(bytes: &[u8], v: u32, n: u64) -> Result<(), CodecFault>
    requires { 14 ≤ length bytes.now }
    ensures { result_err result ≡ first_fault (name_tests v n bytes.now) }
{
    if u32_at(bytes, 2) != v {
        return Err(CodecFault::BadValue { at: 2 });
    }
    if u64_at(bytes, 6) != n {
        return Err(CodecFault::BadValue { at: 6 });
    }
    Ok(())
}

#[tactic(auto, unfolding(crate::specs::RecordTests::value_tests, crate::specs::RecordTests::element_at))]
fn read_row(bytes: &[u8]) -> Result<Element, CodecFault>
    requires { 62 ≤ length bytes.now }
    ensures fault { result_err result ≡ first_fault (value_tests TwoValues bytes.now) }
    ensures row { IfOk result (λ x. x ≡ element_at TwoValues bytes.now) }
{
    let row = read_two_values(bytes)?;
    Ok(Element::Row(row))
}

#[tactic(auto, unfolding(crate::specs::RecordTests::value_tests, crate::specs::RecordTests::element_at))]
fn read_long_row(bytes: &[u8]) -> Result<Element, CodecFault>
    requires { 78 ≤ length bytes.now }
    ensures fault { result_err result ≡ first_fault (value_tests FourValues bytes.now) }
    ensures row { IfOk result (λ x. x ≡ element_at FourValues bytes.now) }
{
    let row = read_four_values(bytes)?;
    if row.has_two_values() {
        return Err(CodecFault::BadValue { at: 62 });
    }
    Ok(Element::Row(row))
}

/// The row that the bytes say with all four values.
fn read_four_values(bytes: &[u8]) -> Result<Event, CodecFault>
    requires { 78 ≤ length bytes.now }
    ensures fault { result_err result ≡ first_fault (row_tests bytes.now) }
    ensures row { IfOk result (λ row. row ≡ long_row_at bytes.now) }
{
    let row = read_two_values(bytes)?;
    Ok(Event {
        c: i64_at(bytes, 62),
        d: i64_at(bytes, 70),
        ..row
    })
}

/// The row that the bytes say with its first two values.
fn read_two_values(bytes: &[u8]) -> Result<Event, CodecFault>
    requires { 62 ≤ length bytes.now }
    ensures fault { result_err result ≡ first_fault (row_tests bytes.now) }
    ensures row { IfOk result (λ row. row ≡ row_at bytes.now) }
{
    let start = u64_at(bytes, 14);
    let end = u64_at(bytes, 22);
    if start >= end || end >= TOP_TIME {
        return Err(CodecFault::BadValue { at: 14 });
    }
    let Some(key) = read_key(&bytes[30..30 + KEY_LEN]) else {
        return Err(CodecFault::BadValue { at: 30 });
    };
    Ok(Event {
        start,
        end,
        key,
        a: i64_at(bytes, 46),
        b: i64_at(bytes, 54),
        c: 0,
        d: 0,
    })
}

#[tactic(auto, unfolding(crate::specs::RecordTests::value_tests, crate::specs::RecordTests::element_at))]
fn read_cti(bytes: &[u8]) -> Result<Element, CodecFault>
    requires { 22 ≤ length bytes.now }
    ensures fault { result_err result ≡ first_fault (value_tests Time bytes.now) }
    ensures cti { IfOk result (λ x. x ≡ element_at Time bytes.now) }
{
    let time = u64_at(bytes, 14);
    if time == 0 || time >= TOP_TIME {
        return Err(CodecFault::BadValue { at: 14 });
    }
    Ok(Element::Cti(time))
}

#[tactic(auto, unfolding(crate::specs::RecordTests::value_tests, crate::specs::RecordTests::element_at))]
fn read_end(_bytes: &[u8]) -> Result<Element, CodecFault>
    ensures fault { result_err result ≡ first_fault (value_tests TheEnd _bytes.now) }
    ensures end { IfOk result (λ x. x ≡ element_at TheEnd _bytes.now) }
{
    Ok(Element::End)
}

/// The key whose bytes, with zeros behind, are these.
#[tactic(auto, unfolding(crate::specs::RecordTests::key_in))]
fn read_key(field: &[u8]) -> Option<Key>
    ensures { result ≡ key_in field.now }
{
    let Ok(key) = Key::of(before_zeros(field)) else {
        return None;
    };
    if bytes_of_key(&key).as_slice() == field {
        Some(key)
    } else {
        None
    }
}

/// The bytes before the first zero.
fn before_zeros(field: &[u8]) -> &[u8]
    ensures { result.now ≡ take_while is_not_zero field.now }
{
    let count = count_before_zeros(field);
    &field[..count]
}

fn count_before_zeros(field: &[u8]) -> usize
    ensures count { result ≡ length (take_while is_not_zero field.now) }
    ensures most { result ≤ length field.now }
{
    field.iter().take_while(|byte| **byte != 0).count()
}
