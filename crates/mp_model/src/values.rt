//! The value of a row.

ghost use Rattle.std.specs.Prelude.{◌≡◌, ℕ, ◌<◌, ◌≤◌, length, slice_index, if◌then◌else◌, Some, None, IsTrue};
ghost use Rattle.std.specs.List.{list_all};
ghost use Rattle.mp_model.specs.Padded.{padded};
ghost use Rattle.mp_model.specs.Values.{is_value, is_value_byte};

use std::marker::Model;

/// The value of a row: 1 to 32 bytes, each 33 to 126, seen as their list. It holds them in place and takes no memory.
#[derive(Clone, Copy, Debug)]
pub struct Value {
    bytes: [u8; 32],
    len: u8,
}

impl Model for Value {
    ghost use Rattle.std.specs.Prelude.{ℕ, List, take, length, ◌≡◌};
    ghost use Rattle.mp_model.specs.Padded.{padded, cells_again, length_again};
    ghost use Rattle.mp_model.specs.Values.{IsInPlace};

    ghost Value = { List ℕ };

    ghost view = { λ v. take v.len v.bytes };

    ghost invariant = { λ v. IsInPlace v.len v.bytes };

    ghost inverse = { λ d. record { bytes = padded 32 0 d; len = length d } };

    ghost inverse_ok = { λ v h i. record { bytes = cells_again h.padding i; len = length_again h.padding i } };
}

impl Value {
    /// The value of these bytes. None exactly where they aren't a value.
    pub fn read(bytes: &[u8]) -> Option<Value>
        ensures { result ≡ (if is_value bytes.now then Some bytes.now else None) }
    {
        if !is_value(bytes) {
            return None;
        }
        Some(Value {
            bytes: in_place(bytes),
            len: bytes.len() as u8,
        })
    }

    /// The count of bytes, 1 to 32.
    pub fn len(&self) -> usize
        ensures count { result ≡ length self.now }
        ensures most { result ≤ 32 }
    {
        self.len as usize
    }

    /// The i-th byte, from 0.
    pub fn byte(&self, i: usize) -> u8
        requires { i < length self.now }
        ensures { result ≡ slice_index self.now i }
    {
        self.bytes[i]
    }

    /// The bytes.
    pub fn as_slice(&self) -> &[u8]
        ensures bytes { result.now ≡ self.now }
        ensures value { IsTrue (is_value self.now) }
    {
        &self.bytes[..self.len as usize]
    }
}

impl PartialEq for Value {
    ghost use Rattle.std.specs.Prelude.{nat_eq};
    ghost use Rattle.std.specs.Cmp.{partial_equiv_from_equiv};
    ghost use Rattle.std.specs.Cmp.Lexicographic.{pointwise, nat_list_eq_equiv};

    ghost eq = { pointwise nat_eq };

    ghost laws = { partial_equiv_from_equiv nat_list_eq_equiv };

    fn eq(&self, other: &Self) -> bool {
        self.as_slice() == other.as_slice()
    }
}

impl Eq for Value {
    ghost use Rattle.std.specs.Cmp.Lexicographic.{nat_list_eq_equiv};

    ghost laws = { nat_list_eq_equiv };
}

fn is_value(bytes: &[u8]) -> bool
    ensures { result ≡ is_value bytes.now }
{
    1 <= bytes.len() && bytes.len() <= 32 && are_value_bytes(bytes)
}

fn are_value_bytes(bytes: &[u8]) -> bool
    ensures { result ≡ list_all is_value_byte bytes.now }
{
    bytes.iter().all(|byte| 33 <= *byte && *byte <= 126)
}

// The bytes in the front of an array of zeros.
fn in_place(bytes: &[u8]) -> [u8; 32]
    requires { length bytes.now ≤ 32 }
    ensures { result ≡ padded 32 0 bytes.now }
{
    let mut cells = [0; 32];
    cells[..bytes.len()].copy_from_slice(bytes);
    cells
}
