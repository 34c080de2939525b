ghost use Rattle.std.specs.Prelude.{◌≡◌, ◌+◌, ◌≤◌, length};
ghost use Rattle.std.specs.Int.{w32, w64};
ghost use Rattle.ss_elem.specs.Key.{IsKeyNumber};
ghost use Rattle.ss_codec.specs.Record.{key_bytes};
ghost use Rattle.ss_codec.specs.Numbers.{number_at, number_bytes, signed_at, signed_bytes};

use byteorder::{BigEndian, ByteOrder};
use ss_elem::Key;

/// The bytes of the number, the highest first.
#[tactic(auto, unfolding(crate::specs::Numbers::number_bytes))]
pub(crate) fn bytes_of_u32(number: u32) -> [u8; 4]
    ensures { result ≡ number_bytes w32 number }
{
    let mut bytes = [0; 4];
    BigEndian::write_u32(&mut bytes, number);
    bytes
}

/// The bytes of the number, the highest first.
#[tactic(auto, unfolding(crate::specs::Numbers::number_bytes))]
pub(crate) fn bytes_of_u64(number: u64) -> [u8; 8]
    ensures { result ≡ number_bytes w64 number }
{
    let mut bytes = [0; 8];
    BigEndian::write_u64(&mut bytes, number);
    bytes
}

/// The bytes of the number's two's complement, the highest first.
pub(crate) fn bytes_of_i64(number: i64) -> [u8; 8]
    ensures { result ≡ signed_bytes number }
{
    bytes_of_u64(number.cast_unsigned())
}

/// The key's bytes, with zeros behind.
#[tactic(auto, unfolding(crate::specs::Record::key_bytes))]
pub(crate) fn bytes_of_key(key: &Key) -> [u8; 16]
    ensures bytes { result ≡ key_bytes key.now }
    ensures key { IsKeyNumber key.now }
{
    let (bytes, _) = key.bytes();
    bytes
}

/// The number of the 4 bytes from this place on.
#[tactic(auto, unfolding(crate::specs::Numbers::number_at))]
pub(crate) fn u32_at(bytes: &[u8], place: usize) -> u32
    requires { place + 4 ≤ length bytes.now }
    ensures { result ≡ number_at w32 place bytes.now }
{
    let field = &bytes[place..];
    u32::from_be_bytes([field[0], field[1], field[2], field[3]])
}

/// The number of the 8 bytes from this place on.
#[tactic(auto, unfolding(crate::specs::Numbers::number_at))]
pub(crate) fn u64_at(bytes: &[u8], place: usize) -> u64
    requires { place + 8 ≤ length bytes.now }
    ensures { result ≡ number_at w64 place bytes.now }
{
    let field = &bytes[place..];
    u64::from_be_bytes([
        field[0], field[1], field[2], field[3], field[4], field[5], field[6], field[7],
    ])
}

/// The number whose two's complement stands in the 8 bytes from this place on.
pub(crate) fn i64_at(bytes: &[u8], place: usize) -> i64
    requires { place + 8 ≤ length bytes.now }
    ensures { result ≡ signed_at place bytes.now }
{
    u64_at(bytes, place).cast_signed()
}
