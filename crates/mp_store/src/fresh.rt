//! Fresh stores.

ghost use Rattle.std.specs.Prelude.{◌≡◌, ◌⊎◌, ℕ, ◌+◌, ◌-◌, ◌<◌, ◌≤◌, ◌^◌, ◌++◌, min, IsTrue, List, OnOk, length, replicate};
ghost use Rattle.mp_outside.specs.Faults.{one_more};
ghost use Rattle.mp_outside.specs.Disks.{written, Only, Counts};
ghost use Rattle.mp_gated.specs.Gates.{calls_after};
ghost use Rattle.mp_store.specs.Layout.{store_length};
ghost use Rattle.mp_store.specs.PageSides.{page_body};
ghost use Rattle.mp_store.specs.FreshStores.{zeros, fresh_meta, fresh_root, closed_file, pages_file, fresh_file, IsFresh, NoHeader, NoneOpen};

use crate::header_sides::header_body;
use crate::headers::Header;
use crate::page_sides::side_body;
use crate::sides::OPEN;
use mp_gated::write_safely;
use mp_outside::{Disk, Failed};

/// The first bytes of a fresh store's page 0, before zeros: a meta page of format 1 with two bits set, those of pages
/// 0 and 1.
const MAP: [u8; 33] = [
    1, 1, 2, 0, 0, 0, 0, 0, 0, 0, 0, 0, 0, 0, 0, 0, 0, 0, 0, 0, 0, 0, 0, 0, 0, 0, 0, 0, 0, 0, 0, 0,
    3,
];

/// The first bytes of a fresh store's page 1, before zeros: a leaf of format 1 without rows, with the fences 0 and 2^32.
const ROOT: [u8; 32] = [
    2, 1, 0, 0, 0, 0, 0, 0, 0, 0, 0, 0, 0, 0, 0, 0, 0, 0, 0, 0, 0, 0, 0, 0, 0, 0, 0, 0, 1, 0, 0, 0,
];

/// How many zeros are written at a time, and how many times that is a store's length.
const WIDTH: usize = 4224;

const PARTS: u64 = 2017;

// The 1,024 bytes that begin so, and are zeros then.
fn filled(head: &[u8]) -> [u8; 1024]
    requires { length head.now ≤ 1024 }
    ensures { result ≡ head.now ++ replicate (1024 - length head.now) 0 }
{
    let mut bytes = [0; 1024];
    let (front, _) = bytes.split_at_mut(head.len());
    front.copy_from_slice(head);
    bytes
}

// The side of page 0 behind its gate.
#[tactic(auto, unfolding(crate::specs::PageSides::page_body))]
fn map_body() -> [u8; 1039]
    ensures body { result ≡ page_body 1 fresh_meta }
    ensures long { length result ≡ 1039 }
{
    side_body(1, &filled(&MAP))
}

// The side of page 1 behind its gate.
#[tactic(auto, unfolding(crate::specs::PageSides::page_body))]
fn root_body() -> [u8; 1039]
    ensures body { result ≡ page_body 1 fresh_root }
    ensures long { length result ≡ 1039 }
{
    side_body(1, &filled(&ROOT))
}

// Writes an empty file whole, with zeros.
fn write_zeros<D: Disk>(disk: &mut D) -> Result<(), Failed>
    ensures tells { D.tells disk.new ≡ D.tells disk.old }
    ensures blank { IsTrue (D.tells disk.old) → length (D.seen disk.old) ≡ 0
        → OnOk result (D.seen disk.new ≡ zeros store_length) }
    ensures counts { Counts result (D.faults disk.old) (D.faults disk.new) }
    ensures calls { D.calls disk.new ≤ D.calls disk.old + 2017 }
    ensures all { OnOk result (min (D.calls disk.new) (2 ^ 64 - 1) ≡ calls_after 2017 (D.calls disk.old)) }
{
    let zeros = [0; WIDTH];
    for part in 0..PARTS {
        disk.write_at(part * WIDTH as u64, &zeros)?;
    }
    Ok(())
}

// Leaves a file of zeros, of the length of a store, and makes it safe.
fn clear<D: Disk>(disk: &mut D) -> Result<(), Failed>
    ensures tells { D.tells disk.new ≡ D.tells disk.old }
    ensures blank { IsTrue (D.tells disk.old) → OnOk result (D.seen disk.new ≡ zeros store_length) }
    ensures safe { IsTrue (D.tells disk.old) → OnOk result (Only (zeros store_length) (D.image disk.new)) }
    ensures counts { Counts result (D.faults disk.old) (D.faults disk.new) }
    ensures calls { D.calls disk.new ≤ D.calls disk.old + 2019 }
    ensures all { OnOk result (D.calls disk.new ≡ calls_after 2019 (D.calls disk.old)) }
{
    disk.cut(0)?;
    write_zeros(disk)?;
    disk.sync()
}

// Writes a part of a file without an open header that touches no gate of the header.
fn write_part<D: Disk>(disk: &mut D, place: u64, bytes: &[u8]) -> Result<(), Failed>
    requires some { 1 ≤ length bytes.now }
    requires first { 1 ≤ place }
    requires second { 64 < place + length bytes.now → 65 ≤ place }
    requires within { place + length bytes.now ≤ store_length }
    ensures tells { D.tells disk.new ≡ D.tells disk.old }
    ensures written { IsTrue (D.tells disk.old)
        → OnOk result (D.seen disk.new ≡ written place bytes.now (D.seen disk.old)) }
    ensures kept { IsTrue (D.tells disk.old) → NoneOpen (D.seen disk.old) (D.image disk.old)
        → NoneOpen (D.seen disk.new) (D.image disk.new) }
    ensures counts { Counts result (D.faults disk.old) (D.faults disk.new) }
    ensures calls { D.calls disk.new ≡ one_more (D.calls disk.old) }
{
    disk.write_at(place, bytes)
}

// Writes the two pages and the header behind closed gates, and makes them safe.
fn write_bodies<D: Disk>(disk: &mut D) -> Result<(), Failed>
    ensures tells { D.tells disk.new ≡ D.tells disk.old }
    ensures done { IsTrue (D.tells disk.old) → D.seen disk.old ≡ zeros store_length
        → OnOk result (D.seen disk.new ≡ closed_file) }
    ensures safe { IsTrue (D.tells disk.old) → OnOk result (Only (D.seen disk.new) (D.image disk.new)) }
    ensures kept { IsTrue (D.tells disk.old) → NoneOpen (D.seen disk.old) (D.image disk.old)
        → NoneOpen (D.seen disk.new) (D.image disk.new) }
    ensures counts { Counts result (D.faults disk.old) (D.faults disk.new) }
    ensures all { OnOk result (D.calls disk.new ≡ calls_after 4 (D.calls disk.old)) }
{
    let header = Header {
        generation: 1,
        base: 0,
        llsn: 0,
        version: 0,
    };
    write_part(disk, 129, &map_body())?;
    write_part(disk, 2209, &root_body())?;
    write_part(disk, 1, &header_body(&header))?;
    disk.sync()
}

// Opens the gates of the two pages, and makes that safe.
fn open_pages<D: Disk>(disk: &mut D) -> Result<(), Failed>
    ensures tells { D.tells disk.new ≡ D.tells disk.old }
    ensures done { IsTrue (D.tells disk.old) → D.seen disk.old ≡ closed_file
        → OnOk result (D.seen disk.new ≡ pages_file) }
    ensures safe { IsTrue (D.tells disk.old) → OnOk result (Only (D.seen disk.new) (D.image disk.new)) }
    ensures kept { IsTrue (D.tells disk.old) → NoneOpen (D.seen disk.old) (D.image disk.old)
        → NoneOpen (D.seen disk.new) (D.image disk.new) }
    ensures counts { Counts result (D.faults disk.old) (D.faults disk.new) }
    ensures all { OnOk result (D.calls disk.new ≡ calls_after 3 (D.calls disk.old)) }
{
    write_part(disk, 128, &[OPEN])?;
    write_part(disk, 2208, &[OPEN])?;
    disk.sync()
}

// Opens the header's gate in a file whose pages 0 and 1 are whole, and makes that safe.
fn open_header<D: Disk>(disk: &mut D) -> Result<(), Failed>
    ensures tells { D.tells disk.new ≡ D.tells disk.old }
    ensures done { IsTrue (D.tells disk.old) → D.seen disk.old ≡ pages_file
        → OnOk result (D.seen disk.new ≡ fresh_file) }
    ensures safe { IsTrue (D.tells disk.old) → OnOk result (Only (D.seen disk.new) (D.image disk.new)) }
    ensures left { IsTrue (D.tells disk.old) → D.seen disk.old ≡ pages_file → Only pages_file (D.image disk.old)
        → NoneOpen (D.seen disk.old) (D.image disk.old) → (c : List ℕ) → D.image disk.new c
        → NoHeader c ⊎ (c ≡ fresh_file) }
    ensures counts { Counts result (D.faults disk.old) (D.faults disk.new) }
    ensures all { OnOk result (D.calls disk.new ≡ calls_after 2 (D.calls disk.old)) }
{
    write_safely(disk, 0, &[OPEN])
}

// Makes a fresh store of a file of zeros that is safe. Whatever it answers, a crash leaves no open header or all of it.
fn fill<D: Disk>(disk: &mut D) -> Result<(), Failed>
    ensures tells { D.tells disk.new ≡ D.tells disk.old }
    ensures done { IsTrue (D.tells disk.old) → D.seen disk.old ≡ zeros store_length
        → OnOk result (D.seen disk.new ≡ fresh_file) }
    ensures safe { IsTrue (D.tells disk.old) → OnOk result (Only (D.seen disk.new) (D.image disk.new)) }
    ensures left { IsTrue (D.tells disk.old) → D.seen disk.old ≡ zeros store_length
        → Only (zeros store_length) (D.image disk.old)
        → (c : List ℕ) → D.image disk.new c → NoHeader c ⊎ (c ≡ fresh_file) }
    ensures counts { Counts result (D.faults disk.old) (D.faults disk.new) }
    ensures all { OnOk result (D.calls disk.new ≡ calls_after 9 (D.calls disk.old)) }
{
    write_bodies(disk)?;
    open_pages(disk)?;
    open_header(disk)
}

/// Makes a fresh store, whatever the disk held: a file of zeros, written whole and made safe by 2,019 calls of the
/// device; then pages 0 and 1 and the header behind closed gates, then the pages' gates, then the header's gate, each
/// of the three made safe before the next. `Failed` comes only where the disk's count of faults rose; then the file is
/// initialised again. It takes no memory. Once the zeros are safe, a crash leaves no open header, or the fresh store;
/// before, nothing is promised of the file. `docs/formats.md` has what a fresh store is.
pub fn init<D: Disk>(disk: &mut D) -> Result<(), Failed>
    ensures tells { D.tells disk.new ≡ D.tells disk.old }
    // After Ok the file is a fresh store, and a crash leaves it.
    ensures fresh { IsTrue (D.tells disk.old) → OnOk result (IsFresh (D.seen disk.new)) }
    ensures safe { IsTrue (D.tells disk.old) → OnOk result (Only (D.seen disk.new) (D.image disk.new)) }
    // Whatever it answers, once a call was made behind the sync of the zeros.
    ensures left { IsTrue (D.tells disk.old) → D.calls disk.old + 2019 < D.calls disk.new
        → (c : List ℕ) → D.image disk.new c → NoHeader c ⊎ IsFresh c }
    ensures all { OnOk result (D.calls disk.new ≡ calls_after 2028 (D.calls disk.old)) }
    ensures counts { Counts result (D.faults disk.old) (D.faults disk.new) }
{
    clear(disk)?;
    fill(disk)
}
