//! Saving pages in a store.

ghost use Rattle.std.specs.Prelude.{◌≡◌, ◌≢◌, ◌⊎◌, ◌↔◌, ℕ, ◌+◌, ◌<◌, ◌≤◌, true, false, List, None, length, slice_index_or, IsTrue, IfOk, IfErr, OnOk, OnErr};
ghost use Rattle.mp_outside.specs.Disks.{Quiet};
ghost use Rattle.mp_outside.specs.Faults.{Rose};
ghost use Rattle.mp_cells.specs.PageMaps.{page_at};
ghost use Rattle.mp_files.specs.Nine.{StillDisk};
ghost use Rattle.mp_store.specs.declared.refusals.StoreRefusal.TheVariants.{Disk as DiskFailed};
ghost use Rattle.mp_store.specs.Answers.{StoreFinds, StoreCause};
ghost use Rattle.mp_store.specs.HeaderSides.{IsHeader};
ghost use Rattle.mp_store.specs.StoreFiles.{header_in_force, store_fault};
ghost use Rattle.mp_checkpoint.specs.Saving.{ShowsSame, ShowsNew, MaySave, MarksBelow, CanWrite, SavedBelow};

use crate::comparing::mark_changed;
use mp_outside::{Disk, Failed};
use mp_page::Pages;
use mp_store::{Header, Store, StoreRefusal};
use std::alloc::Global;

/// Saves 4,096 pages in the store of a disk under a new header, whose generation is the next one. It opens the store,
/// which syncs it, and compares all pages first; so `NotStore` and `Memory` come before anything is written. Then it
/// closes the open sides of later generations, writes the pages whose content is new, each with the header's LLSN, and
/// flips the header last. `NotStore` comes exactly where the file is off the grammar, at its first fault; `Disk` only
/// where the disk's count of faults rose; `Memory` where there is none, or where the generation isn't the next one.
/// Wherever it stops, a crash leaves what the store showed or all that is new. `docs/formats.md` has the store.
pub fn save_pages<D: Disk>(
    alloc: Global,
    disk: &mut D,
    pages: &Pages,
    header: &Header,
) -> Result<(), StoreRefusal>
    requires pages { length pages.now.items ≡ 4096 }
    requires header { IsHeader header.now }
    ensures still { StillDisk D.Disk disk.old disk.new }
    ensures finds { IsTrue (D.tells disk.old) → StoreFinds (store_fault (D.seen disk.old)) result }
    ensures untouched { IfErr result (λ refusal. refusal ≢ DiskFailed
        → Quiet (D.seen disk.old) (D.image disk.old) (D.seen disk.new) (D.image disk.new)) }
    ensures left { IsTrue (D.tells disk.old) → MaySave header.now (page_at pages.now.items) (D.seen disk.old)
        → (c : List ℕ) → D.image disk.new c → D.image disk.old c
        ⊎ (ShowsSame (D.seen disk.old) c ⊎ ShowsNew header.now (page_at pages.now.items) (D.seen disk.old) c) }
    ensures saved { IsTrue (D.tells disk.old) → MaySave header.now (page_at pages.now.items) (D.seen disk.old)
        → OnOk result ((c : List ℕ) → D.image disk.new c
        → ShowsNew header.now (page_at pages.now.items) (D.seen disk.old) c) }
    ensures cause { StoreCause (D.faults disk.old) (D.faults disk.new) result }
{
    let mut store = match Store::open(alloc, disk) {
        Ok(store) => store,
        Err(unopened) => return Err(unopened.refusal),
    };
    save_in(alloc, &mut store, pages, header)
}

// Saves pages in an open store.
fn save_in<D: Disk>(
    alloc: Global,
    store: &mut Store<'_, D>,
    pages: &Pages,
    header: &Header,
) -> Result<(), StoreRefusal>
    requires open { store.old.live ≡ true }
    requires pages { length pages.now.items ≡ 4096 }
    requires header { IsHeader header.now }
    ensures same_reference { store.new.disk.ghost_name ≡ store.old.disk.ghost_name }
    ensures still { StillDisk D.Disk store.old.disk.now store.new.disk.now }
    ensures sound { IsTrue (D.tells store.old.disk.now) → store_fault (D.seen store.old.disk.now) ≡ None
        → StoreFinds None result }
    ensures untouched { IfErr result (λ refusal. refusal ≢ DiskFailed → Quiet (D.seen store.old.disk.now)
        (D.image store.old.disk.now) (D.seen store.new.disk.now) (D.image store.new.disk.now)) }
    ensures left { IsTrue (D.tells store.old.disk.now)
        → MaySave header.now (page_at pages.now.items) (D.seen store.old.disk.now)
        → (c : List ℕ) → D.image store.new.disk.now c → ShowsSame (D.seen store.old.disk.now) c
        ⊎ ShowsNew header.now (page_at pages.now.items) (D.seen store.old.disk.now) c }
    ensures saved { IsTrue (D.tells store.old.disk.now)
        → MaySave header.now (page_at pages.now.items) (D.seen store.old.disk.now)
        → OnOk result ((c : List ℕ) → D.image store.new.disk.now c
        → ShowsNew header.now (page_at pages.now.items) (D.seen store.old.disk.now) c) }
    ensures cause { StoreCause (D.faults store.old.disk.now) (D.faults store.new.disk.now) result }
{
    if !is_next(&store.header(), header) {
        return Err(StoreRefusal::Memory);
    }
    let marks = match mark_changed(alloc, store, pages) {
        Ok(marks) => marks,
        Err(refusal) => return Err(refusal),
    };
    match write_all(store, &marks, pages, header) {
        Ok(()) => Ok(()),
        Err(Failed) => Err(StoreRefusal::Disk),
    }
}

// Whether a header is of the generation behind that of another one.
fn is_next(old: &Header, new: &Header) -> bool
    requires { 1 ≤ new.now.generation }
    ensures { IsTrue result ↔ (new.now.generation ≡ old.now.generation + 1) }
{
    new.generation - 1 == old.generation
}

// Closes the later sides, writes the marked pages, and flips the header.
fn write_all<D: Disk>(
    store: &mut Store<'_, D>,
    marks: &Vec<bool>,
    pages: &Pages,
    header: &Header,
) -> Result<(), Failed>
    requires open { store.old.live ≡ true }
    requires marks { length marks.now.items ≡ 4096 }
    requires pages { length pages.now.items ≡ 4096 }
    requires header { IsHeader header.now }
    requires next { header.now.generation ≡ store.old.header.generation + 1 }
    ensures same_reference { store.new.disk.ghost_name ≡ store.old.disk.ghost_name }
    ensures still { StillDisk D.Disk store.old.disk.now store.new.disk.now }
    ensures left { IsTrue (D.tells store.old.disk.now)
        → MaySave header.now (page_at pages.now.items) (D.seen store.old.disk.now)
        → MarksBelow 4096 marks.now.items (page_at pages.now.items) store.old.header.generation (D.seen store.old.disk.now)
        → (c : List ℕ) → D.image store.new.disk.now c → ShowsSame (D.seen store.old.disk.now) c
        ⊎ ShowsNew header.now (page_at pages.now.items) (D.seen store.old.disk.now) c }
    ensures saved { IsTrue (D.tells store.old.disk.now)
        → MaySave header.now (page_at pages.now.items) (D.seen store.old.disk.now)
        → MarksBelow 4096 marks.now.items (page_at pages.now.items) store.old.header.generation (D.seen store.old.disk.now)
        → OnOk result ((c : List ℕ) → D.image store.new.disk.now c
        → ShowsNew header.now (page_at pages.now.items) (D.seen store.old.disk.now) c) }
    ensures cause { OnErr result (Rose (D.faults store.old.disk.now) (D.faults store.new.disk.now)) }
{
    store.close_later()?;
    write_marked(store, marks, pages, header)?;
    store.flip_header(header)
}

// Writes the marked pages.
fn write_marked<D: Disk>(
    store: &mut Store<'_, D>,
    marks: &Vec<bool>,
    pages: &Pages,
    header: &Header,
) -> Result<(), Failed>
    requires open { store.old.live ≡ true }
    requires marks { length marks.now.items ≡ 4096 }
    requires pages { length pages.now.items ≡ 4096 }
    requires header { IsHeader header.now }
    requires next { header.now.generation ≡ store.old.header.generation + 1 }
    ensures same_reference { store.new.disk.ghost_name ≡ store.old.disk.ghost_name }
    ensures header { store.new.header ≡ store.old.header }
    ensures live { OnOk result (store.new.live ≡ true) }
    ensures still { StillDisk D.Disk store.old.disk.now store.new.disk.now }
    ensures left { IsTrue (D.tells store.old.disk.now)
        → CanWrite header.now marks.now.items (page_at pages.now.items) (D.seen store.old.disk.now)
        → (c : List ℕ) → D.image store.new.disk.now c → ShowsSame (D.seen store.old.disk.now) c }
    ensures saved { IsTrue (D.tells store.old.disk.now)
        → CanWrite header.now marks.now.items (page_at pages.now.items) (D.seen store.old.disk.now)
        → OnOk result (SavedBelow 4096 header.now (page_at pages.now.items) (D.seen store.old.disk.now) (D.seen store.new.disk.now)) }
    ensures cause { OnErr result (Rose (D.faults store.old.disk.now) (D.faults store.new.disk.now)) }
{
    store.write_pages(marks, pages, header)
}
