//! Homes read from the disk.

ghost use Rattle.std.specs.Prelude.{◌≡◌, ℕ, ◌+◌, ◌<◌, ◌≤◌, ◌^◌, IsTrue, IfOk, OnOk, OnErr, length, take, drop};
ghost use Rattle.mp_outside.specs.Faults.{Rose};
ghost use Rattle.mp_outside.specs.Disks.{Quiet};
ghost use Rattle.mp_cells.specs.PageView.{IsPage};
ghost use Rattle.mp_store.specs.Layout.{store_length, header_place, page_place, header_side, page_side};
ghost use Rattle.mp_store.specs.StoreFiles.{page_in_force, page_fault_in_force};
ghost use Rattle.mp_store.specs.Answers.{StoreFinds, StoreCause, NeedsNoMemory};

use crate::page_sides::shown_page;
use crate::refusals::StoreRefusal;
use crate::sides::Side;
use mp_outside::{Disk, Failed, read_exactly};
use mp_page::Page;

/// The place of a page's side.
pub(crate) fn page_place(number: u16, side: Side) -> u64
    requires { number < 4096 }
    ensures { result ≡ page_place number side }
{
    let home = 128 + 2080 * u64::from(number);
    match side {
        Side::First => home,
        Side::Second => home + 1040,
    }
}

/// The place of a header's side.
pub(crate) fn header_place(side: Side) -> u64
    ensures { result ≡ header_place side }
{
    match side {
        Side::First => 0,
        Side::Second => 64,
    }
}

/// The header's home. It is refused only where a read fails or the file is too short.
pub(crate) fn read_headers<D: Disk>(disk: &mut D) -> Result<[u8; 128], Failed>
    ensures tells { D.tells disk.new ≡ D.tells disk.old }
    ensures quiet { Quiet (D.seen disk.old) (D.image disk.old) (D.seen disk.new) (D.image disk.new) }
    ensures first { IsTrue (D.tells disk.old)
        → IfOk result (λ home. take 64 home ≡ header_side Side.First (D.seen disk.old)) }
    ensures second { IsTrue (D.tells disk.old)
        → IfOk result (λ home. drop 64 home ≡ header_side Side.Second (D.seen disk.old)) }
    ensures long { IsTrue (D.tells disk.old) → OnOk result (header_place Side.Second + 64 ≤ length (D.seen disk.old)) }
    ensures known { D.known disk.new ≡ D.known disk.old }
    ensures count { D.faults disk.old ≤ D.faults disk.new }
    ensures cause { store_length ≤ D.known disk.old → OnErr result (Rose (D.faults disk.old) (D.faults disk.new)) }
{
    let mut home = [0; 128];
    read_exactly(disk, 0, &mut home)?;
    Ok(home)
}

/// A page's home. It is refused only where a read fails or the file is too short.
pub(crate) fn read_home<D: Disk>(disk: &mut D, number: u16) -> Result<[u8; 2080], Failed>
    requires { number < 4096 }
    ensures tells { D.tells disk.new ≡ D.tells disk.old }
    ensures quiet { Quiet (D.seen disk.old) (D.image disk.old) (D.seen disk.new) (D.image disk.new) }
    ensures first { IsTrue (D.tells disk.old)
        → IfOk result (λ home. take 1040 home ≡ page_side number Side.First (D.seen disk.old)) }
    ensures second { IsTrue (D.tells disk.old)
        → IfOk result (λ home. drop 1040 home ≡ page_side number Side.Second (D.seen disk.old)) }
    ensures long { IsTrue (D.tells disk.old)
        → OnOk result (page_place number Side.Second + 1040 ≤ length (D.seen disk.old)) }
    ensures known { D.known disk.new ≡ D.known disk.old }
    ensures count { D.faults disk.old ≤ D.faults disk.new }
    ensures cause { store_length ≤ D.known disk.old → OnErr result (Rose (D.faults disk.old) (D.faults disk.new)) }
{
    let mut home = [0; 2080];
    read_exactly(disk, page_place(number, Side::First), &mut home)?;
    Ok(home)
}

/// The page in force of a number in a store of a generation. `NotStore` comes exactly where the page's side in force
/// has a fault, at that place.
#[tactic(auto, unfolding(crate::specs::StoreFiles::page_in_force))]
pub(crate) fn read_in_force<D: Disk>(
    disk: &mut D,
    generation: u64,
    number: u16,
) -> Result<Page, StoreRefusal>
    requires { number < 4096 }
    ensures tells { D.tells disk.new ≡ D.tells disk.old }
    ensures quiet { Quiet (D.seen disk.old) (D.image disk.old) (D.seen disk.new) (D.image disk.new) }
    ensures is { IfOk result (λ page. IsPage page) }
    ensures page { IsTrue (D.tells disk.old)
        → IfOk result (λ page. page ≡ page_in_force generation number (D.seen disk.old)) }
    ensures finds { IsTrue (D.tells disk.old)
        → StoreFinds (page_fault_in_force generation number (D.seen disk.old)) result }
    ensures known { D.known disk.new ≡ D.known disk.old }
    ensures count { D.faults disk.old ≤ D.faults disk.new }
    ensures cause { store_length ≤ D.known disk.old → StoreCause (D.faults disk.old) (D.faults disk.new) result }
    ensures memory { NeedsNoMemory result }
{
    let home = read_home(disk, number)?;
    let (first, second) = home.split_at(1040);
    match shown_page(generation, page_place(number, Side::First), first, second) {
        Ok(page) => Ok(page),
        Err(place) => Err(StoreRefusal::NotStore { place }),
    }
}
