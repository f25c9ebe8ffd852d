//! Which pages are new.

ghost use Rattle.std.specs.Prelude.{◌≡◌, ◌↔◌, ℕ, ◌<◌, true, None, length, IsTrue, IfOk, OnOk};
ghost use Rattle.mp_cells.specs.PageMaps.{page_at};
ghost use Rattle.mp_cells.specs.PageView.{SameContent};
ghost use Rattle.mp_files.specs.Nine.{KeptDisk};
ghost use Rattle.mp_store.specs.Answers.{StoreFinds, StoreCause};
ghost use Rattle.mp_store.specs.StoreFiles.{page_in_force, store_fault};
ghost use Rattle.mp_checkpoint.specs.Saving.{MarksChange, MarksBelow};

use mp_outside::Disk;
use mp_page::Pages;
use mp_store::{Store, StoreRefusal};
use std::alloc::Global;

/// For each of 4,096 pages whether its content differs from that of the stored one. Refusals are as for reading pages.
pub(crate) fn mark_changed<D: Disk>(
    alloc: Global,
    store: &mut Store<'_, D>,
    pages: &Pages,
) -> Result<Vec<bool>, StoreRefusal>
    requires open { store.old.live ≡ true }
    requires pages { length pages.now.items ≡ 4096 }
    ensures same_reference { store.new.disk.ghost_name ≡ store.old.disk.ghost_name }
    ensures header { store.new.header ≡ store.old.header }
    ensures live { store.new.live ≡ true }
    ensures kept { KeptDisk D.Disk store.old.disk.now store.new.disk.now }
    ensures count { IfOk result (λ marks. length marks.items ≡ 4096) }
    ensures marks { IsTrue (D.tells store.old.disk.now) → IfOk result (λ marks. MarksBelow 4096 marks.items
        (page_at pages.now.items) store.old.header.generation (D.seen store.old.disk.now)) }
    ensures sound { IsTrue (D.tells store.old.disk.now) → store_fault (D.seen store.old.disk.now) ≡ None
        → StoreFinds None result }
    ensures cause { StoreCause (D.faults store.old.disk.now) (D.faults store.new.disk.now) result }
{
    let mut marks = Vec::new(alloc);
    for number in 0..4096u16 {
        let changed = match is_changed(store, pages, number) {
            Ok(changed) => changed,
            Err(refusal) => return Err(refusal),
        };
        match marks.push(changed) {
            Ok(()) => (),
            Err(_) => return Err(StoreRefusal::Memory),
        }
    }
    Ok(marks)
}

// Whether the content of a page differs from that of the stored one.
fn is_changed<D: Disk>(
    store: &mut Store<'_, D>,
    pages: &Pages,
    number: u16,
) -> Result<bool, StoreRefusal>
    requires open { store.old.live ≡ true }
    requires pages { length pages.now.items ≡ 4096 }
    requires number { number < 4096 }
    ensures same_reference { store.new.disk.ghost_name ≡ store.old.disk.ghost_name }
    ensures header { store.new.header ≡ store.old.header }
    ensures live { store.new.live ≡ true }
    ensures kept { KeptDisk D.Disk store.old.disk.now store.new.disk.now }
    ensures mark { IsTrue (D.tells store.old.disk.now) → IfOk result (λ changed. MarksChange changed
        (page_at pages.now.items number) (page_in_force store.old.header.generation number (D.seen store.old.disk.now))) }
    ensures sound { IsTrue (D.tells store.old.disk.now) → store_fault (D.seen store.old.disk.now) ≡ None
        → StoreFinds None result }
    ensures cause { StoreCause (D.faults store.old.disk.now) (D.faults store.new.disk.now) result }
{
    match store.read_page(number) {
        Ok(stored) => Ok(!pages.get(usize::from(number)).shows_as(&stored)),
        Err(refusal) => Err(refusal),
    }
}
