//! Reading all pages of a store.

ghost use Rattle.std.specs.Prelude.{◌≡◌, ◌++◌, [], ◌∷◌, ℕ, ◌<◌, true, None, length, IsTrue, IfOk, OnOk};
ghost use Rattle.mp_cells.specs.PageMaps.{page_at};
ghost use Rattle.mp_files.specs.Nine.{KeptDisk};
ghost use Rattle.mp_store.specs.Answers.{StoreFinds, StoreCause};
ghost use Rattle.mp_store.specs.StoreFiles.{page_in_force, store_fault};

use mp_model::Memory;
use mp_outside::Disk;
use mp_page::{Page, Pages};
use mp_store::{Store, StoreRefusal};
use std::alloc::Global;

/// All 4,096 pages of an open store, each as it is in force. `NotStore` doesn't come where the store has no fault;
/// `Disk` only where the disk's count of faults rose; `Memory`. The disk is read, and the store stays open.
pub fn read_pages<D: Disk>(alloc: Global, store: &mut Store<'_, D>) -> Result<Pages, StoreRefusal>
    requires open { store.old.live ≡ true }
    ensures same_reference { store.new.disk.ghost_name ≡ store.old.disk.ghost_name }
    ensures header { store.new.header ≡ store.old.header }
    ensures live { store.new.live ≡ true }
    ensures kept { KeptDisk D.Disk store.old.disk.now store.new.disk.now }
    ensures count { IfOk result (λ pages. length pages.items ≡ 4096) }
    ensures pages { IsTrue (D.tells store.old.disk.now) → IfOk result (λ pages. (n : ℕ) → n < 4096
        → page_at pages.items n ≡ page_in_force store.old.header.generation n (D.seen store.old.disk.now)) }
    ensures sound { IsTrue (D.tells store.old.disk.now) → store_fault (D.seen store.old.disk.now) ≡ None
        → StoreFinds None result }
    ensures cause { StoreCause (D.faults store.old.disk.now) (D.faults store.new.disk.now) result }
{
    let mut pages = Pages::new(alloc);
    for number in 0..4096u16 {
        let page = match store.read_page(number) {
            Ok(page) => page,
            Err(refusal) => return Err(refusal),
        };
        match pages.push(page) {
            Ok(()) => (),
            Err(Memory) => return Err(StoreRefusal::Memory),
        }
    }
    Ok(pages)
}
