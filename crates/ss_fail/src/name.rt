ghost use Rattle.std.specs.Prelude.{◌≡◌, ◌<◌, ◌≤◌, length, bytes_eq};
ghost use Rattle.std.specs.Cmp.{partial_equiv_from_equiv};
ghost use Rattle.std.specs.Cmp.Lexicographic.{nat_list_eq_equiv};

use std::marker::Model;

const MOST_BYTES: usize = 32;

/// The name of a vertex: a text of 1 to 32 bytes.
///
/// It is kept in place, with zeros behind the text, so that a name can be copied without memory.
#[derive(Clone, Copy, Debug)]
pub struct Name {
    bytes: [u8; MOST_BYTES],
    len: usize,
}

impl Model for Name {
    ghost use Rattle.std.specs.Prelude.{List, ℕ, length, take};
    ghost use Rattle.std.proofs.Common.{sym};
    ghost use Rattle.ss_fail.specs.Name.{padded, length-kept, IsKept};

    ghost Value = { List ℕ };

    ghost view = { λ n. take n.len n.bytes };

    ghost invariant = { λ n. IsKept n.bytes n.len };

    ghost inverse = { λ text. record { bytes = padded text; len = length text } };

    ghost inverse_ok = { λ n kept i. record { bytes = sym kept.zeros i; len = length-kept n.bytes n.len kept i } };
}

impl Name {
    /// The name with these bytes.
    pub fn of(bytes: &[u8]) -> Name
        requires some { 0 < length bytes.now }
        requires few { length bytes.now ≤ 32 }
        ensures { result ≡ bytes.now }
    {
        let mut kept = [0; MOST_BYTES];
        kept[..bytes.len()].copy_from_slice(bytes);
        Name {
            bytes: kept,
            len: bytes.len(),
        }
    }

    /// The name's bytes, 1 to 32.
    pub fn as_slice(&self) -> &[u8]
        ensures bytes { result.now ≡ self.now }
        ensures some { 0 < length self.now }
        ensures few { length self.now ≤ 32 }
    {
        &self.bytes[..self.len]
    }
}

/// Two names are equal where their texts are.
impl PartialEq for Name {
    ghost eq = { bytes_eq };

    ghost laws = { partial_equiv_from_equiv nat_list_eq_equiv };

    fn eq(&self, other: &Name) -> bool {
        self.as_slice() == other.as_slice()
    }
}

impl Eq for Name {
    ghost laws = { nat_list_eq_equiv };
}
