//! Headers read from the sides of a header's home, and written to one.

ghost use Rattle.std.specs.Prelude.{◌≡◌, ℕ, ◌+◌, ◌<◌, ◌≤◌, ◌^◌, ◌||◌, ◌&&◌, IsTrue, None, length, take, drop};
ghost use Rattle.mp_store.specs.Checks.{only_if};
ghost use Rattle.mp_store.specs.Layout.{is_open};
ghost use Rattle.mp_store.specs.HeaderSides.{header_mark, header_body, header_of, header_generation, numbers_fault, header_fault, headers_fault, header_in};

use crate::checks::{fixed_fault, unless};
use crate::headers::Header;
use crate::sides::{Side, is_open};
use mp_cells::{u64_at, u64_bytes};

/// Bytes 1..16 of a header's side: MPSTORE, the format 1, and zeros.
const MARK: [u8; 15] = [77, 80, 83, 84, 79, 82, 69, 1, 0, 0, 0, 0, 0, 0, 0];

/// The header of a side without a fault.
#[tactic(auto, unfolding(crate::specs::HeaderSides::header_of))]
pub(crate) fn header_of(side: &[u8]) -> Header
    requires long { length side.now ≡ 64 }
    requires version { (header_of side.now).version < 2 ^ 24 }
    ensures header { result ≡ header_of side.now }
    ensures fits { result.generation < 2 ^ 64 }
{
    Header {
        generation: generation_of(side),
        base: u64_at(side, 24),
        llsn: u64_at(side, 32),
        version: u64_at(side, 40) as u32,
    }
}

fn generation_of(side: &[u8]) -> u64
    requires { 64 ≤ length side.now }
    ensures { result ≡ header_generation side.now }
{
    u64_at(side, 16)
}

/// The first fault of a side that lies at a place.
#[tactic(auto, unfolding(crate::specs::HeaderSides::header_fault))]
fn header_fault(place: u64, side: &[u8]) -> Option<u64>
    requires long { length side.now ≡ 64 }
    requires fits { place + 64 < 2 ^ 64 }
    ensures { result ≡ header_fault place side.now }
{
    if let Some(place) = fixed_fault(place + 1, &MARK, side.split_at(1).1) {
        return Some(place);
    }
    if let Some(place) = numbers_fault(place, side) {
        return Some(place);
    }
    fixed_fault(place + 48, &[0; 16], side.split_at(48).1)
}

fn numbers_fault(place: u64, side: &[u8]) -> Option<u64>
    requires long { length side.now ≡ 64 }
    requires fits { place + 64 < 2 ^ 64 }
    ensures { result ≡ numbers_fault place side.now }
{
    if generation_of(side) == 0 {
        return Some(place + 16);
    }
    if 1 << 38 <= u64_at(side, 24) {
        return Some(place + 24);
    }
    if 1 << 62 <= u64_at(side, 32) {
        return Some(place + 32);
    }
    unless(u64_at(side, 40) < 1 << 24, place + 40)
}

/// The first fault of the two sides of a header's home.
#[tactic(auto, unfolding(crate::specs::HeaderSides::headers_fault))]
pub(crate) fn headers_fault(first: &[u8], second: &[u8]) -> Option<u64>
    requires first { length first.now ≡ 64 }
    requires second { length second.now ≡ 64 }
    ensures { result ≡ headers_fault first.now second.now }
{
    if !is_open(first) && !is_open(second) {
        return Some(0);
    }
    if let Some(place) = open_fault(0, first) {
        return Some(place);
    }
    if let Some(place) = open_fault(64, second) {
        return Some(place);
    }
    let two = is_open(first) && is_open(second);
    unless(!(two && generation_of(first) == generation_of(second)), 64)
}

// The first fault of a side that lies at a place, where its gate is open.
fn open_fault(place: u64, side: &[u8]) -> Option<u64>
    requires long { length side.now ≡ 64 }
    requires fits { place + 64 < 2 ^ 64 }
    ensures { result ≡ only_if (is_open side.now) (header_fault place side.now) }
{
    if is_open(side) {
        header_fault(place, side)
    } else {
        None
    }
}

/// The side in force: the open one with the greater generation.
pub(crate) fn header_in(first: &[u8], second: &[u8]) -> Side
    requires first { length first.now ≡ 64 }
    requires second { length second.now ≡ 64 }
    ensures { result ≡ header_in first.now second.now }
{
    if is_open(second) && (!is_open(first) || generation_of(first) < generation_of(second)) {
        Side::Second
    } else {
        Side::First
    }
}

/// The bytes of a header behind its gate.
#[tactic(auto, unfolding(crate::specs::HeaderSides::header_body))]
pub(crate) fn header_body(header: &Header) -> [u8; 63]
    ensures body { result ≡ header_body header.now }
    ensures long { length result ≡ 63 }
{
    let mut body = [0; 63];
    body[..15].copy_from_slice(&MARK);
    body[15..23].copy_from_slice(&u64_bytes(header.generation));
    body[23..31].copy_from_slice(&u64_bytes(header.base));
    body[31..39].copy_from_slice(&u64_bytes(header.llsn));
    body[39..47].copy_from_slice(&u64_bytes(u64::from(header.version)));
    body
}
