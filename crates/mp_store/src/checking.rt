//! The checks of a store file, in their order.

ghost use Rattle.std.specs.Prelude.{◌≡◌, ℕ, ◌+◌, ◌<◌, ◌≤◌, ◌^◌, IsTrue, IfOk, OnOk, None, [], ◌∷◌, length, take, drop};
ghost use Rattle.mp_outside.specs.Disks.{Quiet};
ghost use Rattle.mp_cells.specs.PageView.{IsPage};
ghost use Rattle.mp_store.specs.Checks.{unless, first_of};
ghost use Rattle.mp_store.specs.Layout.{store_length, page_place, header_side, page_side, pick};
ghost use Rattle.mp_store.specs.HeaderSides.{IsHeader, header_of, header_in, headers_fault};
ghost use Rattle.mp_store.specs.StoreFiles.{header_in_force, page_in_force, home_fault, homes_fault, is_map, is_root, map_fault, roots_fault, length_fault};
ghost use Rattle.mp_store.specs.Answers.{StoreFinds, StoreCause, NeedsNoMemory};

use crate::checks::unless;
use crate::header_sides::{header_in, header_of, headers_fault};
use crate::headers::Header;
use crate::page_sides::sides_fault;
use crate::reading::{page_place, read_headers, read_home, read_in_force};
use crate::refusals::StoreRefusal;
use crate::sides::Side;
use mp_outside::Disk;
use mp_page::{Kind, Page};

/// The length of a store file.
pub(crate) const LENGTH: u64 = 8_519_808;

/// How many pages a store has.
const PAGES: u16 = 4096;

// What a check found.
fn found(fault: Option<u64>) -> Result<(), StoreRefusal>
    ensures finds { StoreFinds fault result }
    ensures cause { (old : ℕ) (new : ℕ) → StoreCause old new result }
    ensures memory { NeedsNoMemory result }
{
    match fault {
        None => Ok(()),
        Some(place) => Err(StoreRefusal::NotStore { place }),
    }
}

/// Whether the file is long enough.
pub(crate) fn check_length<D: Disk>(disk: &mut D) -> Result<(), StoreRefusal>
    ensures tells { D.tells disk.new ≡ D.tells disk.old }
    ensures quiet { Quiet (D.seen disk.old) (D.image disk.old) (D.seen disk.new) (D.image disk.new) }
    ensures finds { IsTrue (D.tells disk.old) → StoreFinds (length_fault (length (D.seen disk.old))) result }
    ensures known { OnOk result (store_length ≤ D.known disk.new) }
    ensures count { D.faults disk.old ≤ D.faults disk.new }
    ensures cause { StoreCause (D.faults disk.old) (D.faults disk.new) result }
    ensures memory { NeedsNoMemory result }
{
    let size = disk.length()?;
    if size < 128 {
        return Err(StoreRefusal::NotStore { place: 0 });
    }
    if size < LENGTH {
        return Err(StoreRefusal::NotStore { place: size });
    }
    Ok(())
}

// The header of the side in force, of two sides without a fault.
fn header_shown(first: &[u8], second: &[u8]) -> Header
    requires first { length first.now ≡ 64 }
    requires second { length second.now ≡ 64 }
    requires sound { headers_fault first.now second.now ≡ None }
    ensures header { result ≡ header_of (pick (header_in first.now second.now) first.now second.now) }
    ensures is { IsHeader result }
{
    match header_in(first, second) {
        Side::First => header_of(first),
        Side::Second => header_of(second),
    }
}

/// The header in force, where the header's home has no fault.
#[tactic(auto, unfolding(crate::specs::StoreFiles::header_in_force))]
pub(crate) fn check_headers<D: Disk>(disk: &mut D) -> Result<Header, StoreRefusal>
    ensures tells { D.tells disk.new ≡ D.tells disk.old }
    ensures quiet { Quiet (D.seen disk.old) (D.image disk.old) (D.seen disk.new) (D.image disk.new) }
    ensures is { IfOk result (λ header. IsHeader header) }
    ensures header { IsTrue (D.tells disk.old) → IfOk result (λ header. header ≡ header_in_force (D.seen disk.old)) }
    ensures finds { IsTrue (D.tells disk.old)
        → StoreFinds
        (headers_fault (header_side Side.First (D.seen disk.old)) (header_side Side.Second (D.seen disk.old))) result }
    ensures known { D.known disk.new ≡ D.known disk.old }
    ensures count { D.faults disk.old ≤ D.faults disk.new }
    ensures cause { store_length ≤ D.known disk.old → StoreCause (D.faults disk.old) (D.faults disk.new) result }
    ensures memory { NeedsNoMemory result }
{
    let home = read_headers(disk)?;
    let (first, second) = home.split_at(64);
    match headers_fault(first, second) {
        Some(place) => Err(StoreRefusal::NotStore { place }),
        None => Ok(header_shown(first, second)),
    }
}

/// Whether a page's home has no fault in a store of a generation.
fn check_home<D: Disk>(disk: &mut D, generation: u64, number: u16) -> Result<(), StoreRefusal>
    requires { number < 4096 }
    ensures tells { D.tells disk.new ≡ D.tells disk.old }
    ensures quiet { Quiet (D.seen disk.old) (D.image disk.old) (D.seen disk.new) (D.image disk.new) }
    ensures finds { IsTrue (D.tells disk.old) → StoreFinds (home_fault generation number (D.seen disk.old)) result }
    ensures known { D.known disk.new ≡ D.known disk.old }
    ensures count { D.faults disk.old ≤ D.faults disk.new }
    ensures cause { store_length ≤ D.known disk.old → StoreCause (D.faults disk.old) (D.faults disk.new) result }
    ensures memory { NeedsNoMemory result }
{
    let home = read_home(disk, number)?;
    let (first, second) = home.split_at(1040);
    found(sides_fault(generation, page_place(number, Side::First), first, second))
}

/// Whether all pages' homes have no fault in a store of a generation.
pub(crate) fn check_homes<D: Disk>(disk: &mut D, generation: u64) -> Result<(), StoreRefusal>
    ensures tells { D.tells disk.new ≡ D.tells disk.old }
    ensures quiet { Quiet (D.seen disk.old) (D.image disk.old) (D.seen disk.new) (D.image disk.new) }
    ensures finds { IsTrue (D.tells disk.old) → StoreFinds (homes_fault generation 4096 (D.seen disk.old)) result }
    ensures known { D.known disk.new ≡ D.known disk.old }
    ensures count { D.faults disk.old ≤ D.faults disk.new }
    ensures cause { store_length ≤ D.known disk.old → StoreCause (D.faults disk.old) (D.faults disk.new) result }
    ensures memory { NeedsNoMemory result }
{
    for number in 0..PAGES {
        check_home(disk, generation, number)?;
    }
    Ok(())
}

fn is_map(page: &Page) -> bool
    ensures { result ≡ is_map page.now }
{
    match page.kind() {
        Kind::Meta => page.taken(0) && page.taken(1),
        _ => false,
    }
}

/// The map of the taken pages of a store of a generation: page 0, where it is such a page.
#[tactic(auto, unfolding(crate::specs::StoreFiles::page_in_force))]
pub(crate) fn read_map_in_force<D: Disk>(
    disk: &mut D,
    generation: u64,
) -> Result<Page, StoreRefusal>
    ensures tells { D.tells disk.new ≡ D.tells disk.old }
    ensures quiet { Quiet (D.seen disk.old) (D.image disk.old) (D.seen disk.new) (D.image disk.new) }
    ensures is { IfOk result (λ map. IsPage map) }
    ensures map { IfOk result (λ map. IsTrue (is_map map)) }
    ensures page { IsTrue (D.tells disk.old) → IfOk result (λ map. map ≡ page_in_force generation 0 (D.seen disk.old)) }
    ensures finds { IsTrue (D.tells disk.old) → StoreFinds (map_fault generation (D.seen disk.old)) result }
    ensures known { D.known disk.new ≡ D.known disk.old }
    ensures count { D.faults disk.old ≤ D.faults disk.new }
    ensures cause { store_length ≤ D.known disk.old → StoreCause (D.faults disk.old) (D.faults disk.new) result }
    ensures memory { NeedsNoMemory result }
{
    let map = read_in_force(disk, generation, 0)?;
    if is_map(&map) {
        Ok(map)
    } else {
        Err(StoreRefusal::NotStore { place: 128 })
    }
}

fn is_root(page: &Page) -> bool
    ensures { result ≡ is_root page.now }
{
    match page.kind() {
        Kind::Leaf | Kind::Inner => page.low() == 0 && page.high() == 1 << 32,
        _ => false,
    }
}

// The first fault of pages 0 and 1.
fn roots_fault(map: &Page, root: &Page) -> Option<u64>
    ensures { result ≡ first_of (unless (is_map map.now) 128 ∷ unless (is_root root.now) 2208 ∷ []) }
{
    if !is_map(map) {
        return Some(128);
    }
    unless(is_root(root), 2208)
}

/// Whether page 0 has pages 0 and 1 taken, and page 1 is the root, in a store of a generation whose homes have no fault.
#[tactic(auto, unfolding(crate::specs::StoreFiles::roots_fault))]
pub(crate) fn check_roots<D: Disk>(disk: &mut D, generation: u64) -> Result<(), StoreRefusal>
    ensures tells { D.tells disk.new ≡ D.tells disk.old }
    ensures quiet { Quiet (D.seen disk.old) (D.image disk.old) (D.seen disk.new) (D.image disk.new) }
    ensures finds { IsTrue (D.tells disk.old) → homes_fault generation 4096 (D.seen disk.old) ≡ None
        → StoreFinds (roots_fault generation (D.seen disk.old)) result }
    ensures known { D.known disk.new ≡ D.known disk.old }
    ensures count { D.faults disk.old ≤ D.faults disk.new }
    ensures cause { store_length ≤ D.known disk.old → StoreCause (D.faults disk.old) (D.faults disk.new) result }
    ensures memory { NeedsNoMemory result }
{
    let map = read_in_force(disk, generation, 0)?;
    let root = read_in_force(disk, generation, 1)?;
    found(roots_fault(&map, &root))
}
