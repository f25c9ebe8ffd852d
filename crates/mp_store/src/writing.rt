//! Sides written to the disk.

ghost use Rattle.std.specs.Prelude.{◌≡◌, ℕ, ◌+◌, ◌<◌, ◌≤◌, ◌^◌, List, IsTrue, OnOk, OnErr, length, drop};
ghost use Rattle.mp_outside.specs.Faults.{Rose};
ghost use Rattle.mp_outside.specs.Disks.{written, Only, Counts};
ghost use Rattle.mp_store.specs.Layout.{store_length, is_open, pick};
ghost use Rattle.mp_store.specs.SideWrites.{SideLeft, open_side, closed, Closing, idle_place, idle_header_place};

use crate::header_sides::header_in;
use crate::page_sides::{idle, side_in_force};
use crate::reading::{header_place, page_place, read_headers, read_home};
use crate::sides::{Side, is_open};
use mp_gated::{write_gated, write_safely};
use mp_outside::{Disk, Failed};

/// The byte that closes a gate.
pub(crate) const CLOSED: u8 = 0;

// Closes the gate at a place where it is open, and makes that safe. A closed gate isn't written again: until it is
// safe, a crash might leave it open.
fn close<D: Disk>(disk: &mut D, place: u64, was_open: bool) -> Result<(), Failed>
    ensures tells { D.tells disk.new ≡ D.tells disk.old }
    ensures closes { IsTrue (D.tells disk.old) → OnOk result (D.seen disk.new ≡ closed was_open place (D.seen disk.old)) }
    ensures safe { IsTrue (D.tells disk.old) → Only (D.seen disk.old) (D.image disk.old)
        → OnOk result (Only (closed was_open place (D.seen disk.old)) (D.image disk.new)) }
    ensures images { IsTrue (D.tells disk.old) → Only (D.seen disk.old) (D.image disk.old) → place < length (D.seen disk.old)
        → (c : List ℕ) → D.image disk.new c → Closing was_open place (D.seen disk.old) c }
    ensures known { D.known disk.old ≤ D.known disk.new }
    ensures counts { Counts result (D.faults disk.old) (D.faults disk.new) }
{
    if was_open {
        write_safely(disk, place, &[CLOSED])
    } else {
        Ok(())
    }
}

/// Writes a side at a place, whose gate is open or not: closes it if need be, writes the body, and opens it, each made
/// safe before the next.
pub(crate) fn write_side<D: Disk>(
    disk: &mut D,
    place: u64,
    was_open: bool,
    body: &[u8],
) -> Result<(), Failed>
    requires some { 1 ≤ length body.now }
    requires fits { place + 1 + length body.now < 2 ^ 64 }
    ensures tells { D.tells disk.new ≡ D.tells disk.old }
    ensures done { IsTrue (D.tells disk.old) → place + 1 + length body.now ≤ length (D.seen disk.old)
        → OnOk result (D.seen disk.new ≡ written place (open_side body.now) (D.seen disk.old)) }
    ensures safe { IsTrue (D.tells disk.old) → Only (D.seen disk.old) (D.image disk.old) → place + 1 + length body.now ≤ length (D.seen disk.old)
        → OnOk result (Only (written place (open_side body.now) (D.seen disk.old)) (D.image disk.new)) }
    ensures images { IsTrue (D.tells disk.old) → Only (D.seen disk.old) (D.image disk.old) → place + 1 + length body.now ≤ length (D.seen disk.old)
        → was_open ≡ is_open (drop place (D.seen disk.old)) → (c : List ℕ) → D.image disk.new c
        → SideLeft place (open_side body.now) (D.seen disk.old) c }
    ensures known { D.known disk.old ≤ D.known disk.new }
    ensures counts { Counts result (D.faults disk.old) (D.faults disk.new) }
{
    close(disk, place, was_open)?;
    write_gated(disk, place, body)
}

/// Whether the gate of one of two sides is open.
pub(crate) fn is_gate_open(side: Side, first: &[u8], second: &[u8]) -> bool
    requires first { 0 < length first.now }
    requires second { 0 < length second.now }
    ensures { result ≡ is_open (pick side first.now second.now) }
{
    match side {
        Side::First => is_open(first),
        Side::Second => is_open(second),
    }
}

/// Writes the side of a page that isn't in force in a store of a generation.
pub(crate) fn write_page_side<D: Disk>(
    disk: &mut D,
    generation: u64,
    number: u16,
    body: &[u8],
) -> Result<(), Failed>
    requires number { number < 4096 }
    requires body { length body.now ≡ 1039 }
    ensures tells { D.tells disk.new ≡ D.tells disk.old }
    ensures done { IsTrue (D.tells disk.old)
        → OnOk result (D.seen disk.new ≡ written (idle_place generation number (D.seen disk.old)) (open_side body.now) (D.seen disk.old)) }
    ensures safe { IsTrue (D.tells disk.old) → Only (D.seen disk.old) (D.image disk.old)
        → OnOk result (Only (written (idle_place generation number (D.seen disk.old)) (open_side body.now) (D.seen disk.old)) (D.image disk.new)) }
    ensures images { IsTrue (D.tells disk.old) → Only (D.seen disk.old) (D.image disk.old) → (c : List ℕ) → D.image disk.new c
        → SideLeft (idle_place generation number (D.seen disk.old)) (open_side body.now) (D.seen disk.old) c }
    ensures room { IsTrue (D.tells disk.old)
        → OnOk result (idle_place generation number (D.seen disk.old) + 1040 ≤ length (D.seen disk.old)) }
    ensures known { D.known disk.old ≤ D.known disk.new }
    ensures count { D.faults disk.old ≤ D.faults disk.new }
    ensures cause { store_length ≤ D.known disk.old → OnErr result (Rose (D.faults disk.old) (D.faults disk.new)) }
{
    let home = read_home(disk, number)?;
    let (first, second) = home.split_at(1040);
    let side = idle(side_in_force(generation, first, second));
    let was_open = is_gate_open(side, first, second);
    write_side(disk, page_place(number, side), was_open, body)
}

/// Writes the header's side that isn't in force.
pub(crate) fn write_header_side<D: Disk>(disk: &mut D, body: &[u8]) -> Result<(), Failed>
    requires { length body.now ≡ 63 }
    ensures tells { D.tells disk.new ≡ D.tells disk.old }
    ensures done { IsTrue (D.tells disk.old)
        → OnOk result (D.seen disk.new ≡ written (idle_header_place (D.seen disk.old)) (open_side body.now) (D.seen disk.old)) }
    ensures safe { IsTrue (D.tells disk.old) → Only (D.seen disk.old) (D.image disk.old)
        → OnOk result (Only (written (idle_header_place (D.seen disk.old)) (open_side body.now) (D.seen disk.old)) (D.image disk.new)) }
    ensures images { IsTrue (D.tells disk.old) → Only (D.seen disk.old) (D.image disk.old) → (c : List ℕ) → D.image disk.new c
        → SideLeft (idle_header_place (D.seen disk.old)) (open_side body.now) (D.seen disk.old) c }
    ensures room { IsTrue (D.tells disk.old)
        → OnOk result (idle_header_place (D.seen disk.old) + 64 ≤ length (D.seen disk.old)) }
    ensures known { D.known disk.old ≤ D.known disk.new }
    ensures count { D.faults disk.old ≤ D.faults disk.new }
    ensures cause { store_length ≤ D.known disk.old → OnErr result (Rose (D.faults disk.old) (D.faults disk.new)) }
{
    let home = read_headers(disk)?;
    let (first, second) = home.split_at(64);
    let side = header_in(first, second).other();
    let was_open = is_gate_open(side, first, second);
    write_side(disk, header_place(side), was_open, body)
}
