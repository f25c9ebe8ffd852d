//! Pages read from the sides of a page's home, and written to one.

ghost use Rattle.std.specs.Prelude.{◌≡◌, ℕ, ◌+◌, ◌<◌, ◌≤◌, ◌^◌, ◌++◌, None, Some, IfOk, IfErr, length, take, drop, replicate};
ghost use Rattle.byteorder.specs.Endian.{little_bytes};
ghost use Rattle.mp_cells.specs.PageView.{IsPage};
ghost use Rattle.mp_page.specs.Grammar.{spelling, page_of};
ghost use Rattle.mp_page.specs.Grammar as grammar;
ghost use Rattle.mp_store.specs.Checks.{only_if};
ghost use Rattle.mp_store.specs.Layout.{is_open, pick};
ghost use Rattle.mp_store.specs.PageSides.{page_body, page_generation, page_llsn, page_in, counts, outranks, side_in_force, idle, shown_page, page_fault, side_fault, sides_fault, in_force_fault};
ghost use Rattle.mp_store.specs.OpenStores.{is_later};

use crate::checks::fixed_fault;
use crate::sides::{Side, is_open};
use mp_cells::{u64_at, u64_bytes};
use mp_page::{Page, read_page, write_page};

fn generation_of(side: &[u8]) -> u64
    requires { length side.now ≡ 1040 }
    ensures { result ≡ page_generation side.now }
{
    u64_at(side, 8)
}

fn llsn_of(side: &[u8]) -> u64
    requires { length side.now ≡ 1040 }
    ensures { result ≡ page_llsn side.now }
{
    u64_at(side, 24)
}

// Whether a side counts in a store of a generation.
fn counts(generation: u64, side: &[u8]) -> bool
    requires { length side.now ≡ 1040 }
    ensures { result ≡ counts generation side.now }
{
    is_open(side) && generation_of(side) <= generation
}

/// Whether a side is open and of a later generation than this one.
pub(crate) fn is_later(generation: u64, side: &[u8]) -> bool
    requires { length side.now ≡ 1040 }
    ensures { result ≡ is_later generation side.now }
{
    is_open(side) && generation < generation_of(side)
}

// Whether one side's pair of generation and LLSN is greater than the other's.
fn outranks(side: &[u8], than: &[u8]) -> bool
    requires side { length side.now ≡ 1040 }
    requires than { length than.now ≡ 1040 }
    ensures { result ≡ outranks side.now than.now }
{
    let (new, old) = (generation_of(side), generation_of(than));
    old < new || (old == new && llsn_of(than) < llsn_of(side))
}

/// The side of a home in force in a store of a generation.
#[tactic(auto, unfolding(crate::specs::PageSides::side_in_force))]
pub(crate) fn side_in_force(generation: u64, first: &[u8], second: &[u8]) -> Option<Side>
    requires first { length first.now ≡ 1040 }
    requires second { length second.now ≡ 1040 }
    ensures { result ≡ side_in_force generation first.now second.now }
{
    let first_counts = counts(generation, first);
    if counts(generation, second) && (!first_counts || outranks(second, first)) {
        return Some(Side::Second);
    }
    if first_counts {
        Some(Side::First)
    } else {
        None
    }
}

/// The side to be written next: the one that isn't in force, or the first where neither is.
pub(crate) fn idle(in_force: Option<Side>) -> Side
    ensures { result ≡ idle in_force }
{
    match in_force {
        None => Side::First,
        Some(side) => side.other(),
    }
}

/// The bytes of a page's side behind its gate, of the page's 1,024 bytes.
pub(crate) fn side_body(generation: u64, page: &[u8]) -> [u8; 1039]
    requires { length page.now ≡ 1024 }
    ensures body { result ≡ replicate 7 0 ++ (little_bytes 8 generation ++ page.now) }
    ensures long { length result ≡ 1039 }
{
    let mut body = [0; 1039];
    body[7..15].copy_from_slice(&u64_bytes(generation));
    body[15..].copy_from_slice(page);
    body
}

/// The bytes of a page's side behind its gate. They take no memory.
#[tactic(auto, unfolding(crate::specs::PageSides::page_body))]
pub(crate) fn page_body(generation: u64, page: &Page) -> [u8; 1039]
    ensures body { result ≡ page_body generation page.now }
    ensures long { length result ≡ 1039 }
    ensures page { IsPage page.now }
{
    // The kind hands out what is known of every page.
    let _kind = page.kind();
    let mut bytes = [0; 1024];
    write_page(page, &mut bytes);
    side_body(generation, &bytes)
}

// The page of a side that lies at a place, or the place of its fault.
fn page_at(place: u64, side: &[u8]) -> Result<Page, u64>
    requires long { length side.now ≡ 1040 }
    requires fits { place + 2 ^ 33 < 2 ^ 64 }
    ensures page { IfOk result (λ page. page ≡ page_in side.now) }
    ensures kept { IfOk result (λ page. IsPage page) }
    ensures sound { IfOk result (λ _. page_fault (place + 16) (drop 16 side.now) ≡ None) }
    ensures fault { IfErr result (λ fault. page_fault (place + 16) (drop 16 side.now) ≡ Some fault) }
{
    let mut bytes = [0; 1024];
    bytes.copy_from_slice(side.split_at(16).1);
    match read_page(&bytes) {
        Ok(page) => Ok(page),
        Err(fault) => Err(place + 16 + u64::from(fault.offset)),
    }
}

/// The page of a side that lies at a place, or the place of its first fault.
#[tactic(auto, unfolding(crate::specs::PageSides::side_fault))]
pub(crate) fn read_side(place: u64, side: &[u8]) -> Result<Page, u64>
    requires long { length side.now ≡ 1040 }
    requires fits { place + 2 ^ 33 < 2 ^ 64 }
    ensures page { IfOk result (λ page. page ≡ page_in side.now) }
    ensures kept { IfOk result (λ page. IsPage page) }
    ensures sound { IfOk result (λ _. side_fault place side.now ≡ None) }
    ensures fault { IfErr result (λ fault. side_fault place side.now ≡ Some fault) }
{
    if let Some(fault) = fixed_fault(place + 1, &[0; 7], side.split_at(1).1) {
        return Err(fault);
    }
    if generation_of(side) == 0 {
        return Err(place + 8);
    }
    page_at(place, side)
}

// The first fault of a side at a place, where it counts.
fn counted_fault(generation: u64, place: u64, side: &[u8]) -> Option<u64>
    requires long { length side.now ≡ 1040 }
    requires fits { place + 2 ^ 33 < 2 ^ 64 }
    ensures { result ≡ only_if (counts generation side.now) (side_fault place side.now) }
{
    if !counts(generation, side) {
        return None;
    }
    match read_side(place, side) {
        Ok(_) => None,
        Err(place) => Some(place),
    }
}

/// The first fault of the sides of a home that count in a store of a generation.
#[tactic(auto, unfolding(crate::specs::PageSides::sides_fault))]
pub(crate) fn sides_fault(generation: u64, place: u64, first: &[u8], second: &[u8]) -> Option<u64>
    requires first { length first.now ≡ 1040 }
    requires second { length second.now ≡ 1040 }
    requires fits { place + 2 ^ 34 < 2 ^ 64 }
    ensures { result ≡ sides_fault generation place first.now second.now }
{
    match counted_fault(generation, place, first) {
        Some(place) => Some(place),
        None => counted_fault(generation, place + 1040, second),
    }
}

/// The page of a home at a place, or the place of the first fault of its side in force.
pub(crate) fn shown_page(
    generation: u64,
    place: u64,
    first: &[u8],
    second: &[u8],
) -> Result<Page, u64>
    requires first { length first.now ≡ 1040 }
    requires second { length second.now ≡ 1040 }
    requires fits { place + 2 ^ 34 < 2 ^ 64 }
    ensures page { IfOk result (λ page. page ≡ shown_page (side_in_force generation first.now second.now) first.now second.now) }
    ensures is { IfOk result (λ page. IsPage page) }
    ensures sound { IfOk result (λ _. in_force_fault (side_in_force generation first.now second.now) place first.now second.now ≡ None) }
    ensures fault { IfErr result (λ fault. in_force_fault (side_in_force generation first.now second.now) place first.now second.now ≡ Some fault) }
{
    match side_in_force(generation, first, second) {
        None => Ok(Page::blank()),
        Some(Side::First) => read_side(place, first),
        Some(Side::Second) => read_side(place + 1040, second),
    }
}
