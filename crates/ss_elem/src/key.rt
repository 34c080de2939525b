ghost use Rattle.std.specs.Prelude.{◌≡◌, ℕ, ◌-◌, ◌≤◌, ◌++◌, true, length, replicate, slice_index, IfErr, IfSome};
ghost use Rattle.std.specs.Prelude.{IfNone, Some};
ghost use Rattle.std.specs.List.{list_all};
ghost use Rattle.std.specs.Result.{result_ok};
ghost use Rattle.ss_elem.specs.Key.{is_key_byte, key_number, key_of, key_text, IsFirstBadByte, IsKeyNumber};
ghost use Rattle.ss_elem.specs.BadKey.{IsBadKey};

use std::marker::Model;

const MOST_BYTES: usize = 16;

/// What an event is about: 1 to 16 bytes from 0x21 to 0x7E, none of them a comma or a double quote.
///
/// It is kept as the big-endian number of its bytes, padded with zeros to 16, so that comparing two
/// keys compares two numbers.
#[derive(Clone, Copy, Debug, PartialEq, Eq, PartialOrd, Ord)]
pub struct Key(u128);

impl Model for Key {
    ghost Value = { ℕ };

    ghost view = { λ k. k.0 };

    ghost invariant = { λ k. IsKeyNumber k.0 };

    ghost inverse = { λ n. record { 0 = n } };
}

/// Why bytes are no key.
#[derive(Clone, Copy, Debug, PartialEq, Eq)]
pub enum BadKey {
    /// There is no byte.
    Empty,
    /// There are `len` bytes, more than 16.
    TooLong { len: u64 },
    /// The byte at this place, counted from 0, is the first that no key may have.
    BadByte { at: u64, byte: u8 },
}

impl Key {
    /// The key with these bytes, or the first thing that is wrong with them: their number before any of them.
    pub fn of(bytes: &[u8]) -> Result<Key, BadKey>
        ensures key { result_ok result ≡ key_of bytes.now }
        ensures refused { IfErr result (IsBadKey bytes.now) }
    {
        if bytes.is_empty() {
            return Err(BadKey::Empty);
        }
        if bytes.len() > MOST_BYTES {
            return Err(BadKey::TooLong {
                len: bytes.len() as u64,
            });
        }
        match first_bad_byte(bytes) {
            Some((at, byte)) => Err(BadKey::BadByte {
                at: at as u64,
                byte,
            }),
            None => Ok(Key(number_of(bytes))),
        }
    }

    /// The key's bytes, padded with zeros, and how many they are without the padding.
    pub fn bytes(&self) -> ([u8; 16], usize)
        ensures padded { result.0 ≡ key_text self.now ++ replicate (16 - length (key_text self.now)) 0 }
        ensures count { result.1 ≡ length (key_text self.now) }
        ensures short { result.1 ≤ 16 }
        ensures same_key { key_of (key_text self.now) ≡ Some self.now }
    {
        let bytes = self.0.to_be_bytes();
        let count = bytes.iter().take_while(|byte| **byte != 0).count();
        (bytes, count)
    }
}

fn is_key_byte(byte: u8) -> bool
    ensures { result ≡ is_key_byte byte }
{
    0x21 <= byte && byte <= 0x7e && byte != b',' && byte != b'"'
}

fn first_bad_byte(bytes: &[u8]) -> Option<(usize, u8)>
    ensures found { IfSome result (λ bad. IsFirstBadByte bytes.now bad.0 bad.1) }
    ensures none { IfNone result (list_all is_key_byte bytes.now ≡ true) }
{
    for (at, byte) in bytes.iter().enumerate() {
        if !is_key_byte(*byte) {
            return Some((at, *byte));
        }
    }
    None
}

/// The byte at this place, zero past the end.
fn byte_at(bytes: &[u8], place: usize) -> u8
    ensures { result ≡ slice_index bytes.now place }
{
    bytes.get(place).copied().unwrap_or(0)
}

fn number_of(bytes: &[u8]) -> u128
    requires { list_all is_key_byte bytes.now ≡ true }
    ensures { result ≡ key_number bytes.now }
{
    let mut number = 0;
    for place in 0..MOST_BYTES {
        number = number * 256 + byte_at(bytes, place) as u128;
    }
    number
}
