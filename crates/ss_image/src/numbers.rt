ghost use Rattle.std.specs.Prelude.{◌≡◌, ◌+◌, ◌≤◌, length};
ghost use Rattle.std.specs.Int.{w64, w128, cast_signed, cast_unsigned};
ghost use Rattle.std.specs.List.{take_while};
ghost use Rattle.ss_elem.specs.Key.{is_not_zero};
ghost use Rattle.ss_image.specs.Numbers.{number_bytes, number_at, key_bytes, key_in};

use byteorder::{BigEndian, ByteOrder};
use ss_elem::Key;

/// The number's bytes, the highest first.
#[tactic(auto, unfolding(crate::specs::Numbers::number_bytes))]
pub fn bytes_of_u32(number: u32) -> [u8; 4]
    ensures { result ≡ number_bytes 4 number }
{
    let mut bytes = [0; 4];
    BigEndian::write_u32(&mut bytes, number);
    bytes
}

/// The number's bytes, the highest first.
#[tactic(auto, unfolding(crate::specs::Numbers::number_bytes))]
pub fn bytes_of_u64(number: u64) -> [u8; 8]
    ensures { result ≡ number_bytes 8 number }
{
    let mut bytes = [0; 8];
    BigEndian::write_u64(&mut bytes, number);
    bytes
}

/// The bytes of the number's two's complement.
#[tactic(auto, unfolding(crate::specs::Numbers::number_bytes))]
pub fn bytes_of_i64(number: i64) -> [u8; 8]
    ensures { result ≡ number_bytes 8 (cast_unsigned w64 number) }
{
    let mut bytes = [0; 8];
    BigEndian::write_i64(&mut bytes, number);
    bytes
}

/// The bytes of the number's two's complement.
#[tactic(auto, unfolding(crate::specs::Numbers::number_bytes))]
pub fn bytes_of_i128(number: i128) -> [u8; 16]
    ensures { result ≡ number_bytes 16 (cast_unsigned w128 number) }
{
    let mut bytes = [0; 16];
    BigEndian::write_i128(&mut bytes, number);
    bytes
}

/// The key's bytes, with zeros behind.
#[tactic(auto, unfolding(crate::specs::Numbers::key_bytes))]
pub fn bytes_of_key(key: &Key) -> [u8; 16]
    ensures { result ≡ key_bytes key.now }
{
    let (bytes, _) = key.bytes();
    bytes
}

/// The number in the 4 bytes from this place on.
#[tactic(auto, unfolding(crate::specs::Numbers::number_at))]
pub fn u32_at(bytes: &[u8], place: usize) -> u32
    requires { place + 4 ≤ length bytes.now }
    ensures { result ≡ number_at 4 place bytes.now }
{
    BigEndian::read_u32(&bytes[place..])
}

/// The number in the 8 bytes from this place on.
#[tactic(auto, unfolding(crate::specs::Numbers::number_at))]
pub fn u64_at(bytes: &[u8], place: usize) -> u64
    requires { place + 8 ≤ length bytes.now }
    ensures { result ≡ number_at 8 place bytes.now }
{
    BigEndian::read_u64(&bytes[place..])
}

/// The number whose two's complement stands in the 8 bytes from this place on.
pub fn i64_at(bytes: &[u8], place: usize) -> i64
    requires { place + 8 ≤ length bytes.now }
    ensures { result ≡ cast_signed w64 (number_at 8 place bytes.now) }
{
    u64_at(bytes, place).cast_signed()
}

#[tactic(auto, unfolding(crate::specs::Numbers::number_at))]
fn u128_at(bytes: &[u8], place: usize) -> u128
    requires { place + 16 ≤ length bytes.now }
    ensures { result ≡ number_at 16 place bytes.now }
{
    BigEndian::read_u128(&bytes[place..])
}

/// The number whose two's complement stands in the 16 bytes from this place on.
pub fn i128_at(bytes: &[u8], place: usize) -> i128
    requires { place + 16 ≤ length bytes.now }
    ensures { result ≡ cast_signed w128 (number_at 16 place bytes.now) }
{
    u128_at(bytes, place).cast_signed()
}

/// The key whose bytes, with zeros behind, are these.
#[tactic(auto, unfolding(crate::specs::Numbers::key_in))]
pub fn read_key(field: &[u8]) -> Option<Key>
    ensures { result ≡ key_in field.now }
{
    let Ok(key) = Key::of(before_zeros(field)) else {
        return None;
    };
    if bytes_of_key(&key).as_slice() == field {
        Some(key)
    } else {
        None
    }
}

/// The bytes before the first zero.
fn before_zeros(field: &[u8]) -> &[u8]
    ensures { result.now ≡ take_while is_not_zero field.now }
{
    let count = count_before_zeros(field);
    &field[..count]
}

fn count_before_zeros(field: &[u8]) -> usize
    ensures count { result ≡ length (take_while is_not_zero field.now) }
    ensures most { result ≤ length field.now }
{
    field.iter().take_while(|byte| **byte != 0).count()
}
