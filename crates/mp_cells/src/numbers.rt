//! Numbers in bytes, the lowest byte first.

ghost use Rattle.std.specs.Prelude.{◌≡◌, ℕ, ◌+◌, ◌^◌, ◌<◌, ◌≤◌, ◌++◌, List, length, take, slice_index};
ghost use Rattle.byteorder.specs.Endian.{little_bytes, little_number};
ghost use Rattle.mp_cells.specs.Numbers.{number_at};

use byteorder::{ByteOrder, LittleEndian};

/// The number in the two bytes from a place on.
#[tactic(auto, unfolding(crate::specs::Numbers::number_at))]
pub fn u16_at(bytes: &[u8], place: usize) -> u16
    requires { place + 2 ≤ length bytes.now }
    ensures { result ≡ number_at place 2 bytes.now }
{
    LittleEndian::read_u16(bytes.split_at(place).1)
}

/// The number in the four bytes from a place on.
#[tactic(auto, unfolding(crate::specs::Numbers::number_at))]
pub fn u32_at(bytes: &[u8], place: usize) -> u32
    requires { place + 4 ≤ length bytes.now }
    ensures { result ≡ number_at place 4 bytes.now }
{
    LittleEndian::read_u32(bytes.split_at(place).1)
}

/// The number in the eight bytes from a place on.
#[tactic(auto, unfolding(crate::specs::Numbers::number_at))]
pub fn u64_at(bytes: &[u8], place: usize) -> u64
    requires { place + 8 ≤ length bytes.now }
    ensures { result ≡ number_at place 8 bytes.now }
{
    LittleEndian::read_u64(bytes.split_at(place).1)
}

/// A number's two bytes.
pub fn u16_bytes(number: u16) -> [u8; 2]
    ensures { result ≡ little_bytes 2 number }
{
    let mut bytes = [0; 2];
    LittleEndian::write_u16(&mut bytes, number);
    bytes
}

/// A number's four bytes.
pub fn u32_bytes(number: u32) -> [u8; 4]
    ensures { result ≡ little_bytes 4 number }
{
    let mut bytes = [0; 4];
    LittleEndian::write_u32(&mut bytes, number);
    bytes
}

/// A number's eight bytes.
pub fn u64_bytes(number: u64) -> [u8; 8]
    ensures { result ≡ little_bytes 8 number }
{
    let mut bytes = [0; 8];
    LittleEndian::write_u64(&mut bytes, number);
    bytes
}

/// A number that is read from bytes is written as the same bytes, and what is written is read again, whatever follows.
pub fn law_number_bytes()
    ensures written_again { (width : ℕ) (bytes : List ℕ) → ((i : ℕ) → slice_index bytes i < 256) → width ≤ length bytes → little_bytes width (little_number width bytes) ≡ take width bytes }
    ensures read_again { (width number : ℕ) (rest : List ℕ) → number < 256 ^ width → little_number width (little_bytes width number ++ rest) ≡ number }
{}
