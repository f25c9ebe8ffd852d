//! The stored pages.

ghost use Rattle.std.specs.Prelude.{◌≡◌, ℕ, ◌++◌, ◌<◌, ◌≤◌, true, IsTrue, IfOk, OnOk, IsOk, None};
ghost use Rattle.mp_outside.specs.Disks.{Quiet};
ghost use Rattle.mp_files.specs.Nine.{KeptDisk};
ghost use Rattle.mp_cells.specs.declared.kinds.Kind.TheVariants.{Meta};
ghost use Rattle.mp_cells.specs.PageView.{is_of};
ghost use Rattle.mp_report.specs.Pages.{page_text};
ghost use Rattle.mp_store.specs.StoreFiles.{store_fault};
ghost use Rattle.mp_store.specs.Answers.{StoreFinds, StoreCause};
ghost use Rattle.mp_commands.specs.Dumps.{taken_text, taken_texts, store_text, dump_text};

use crate::lines::{push_end, push_header};
use mp_model::{Memory, Text};
use mp_outside::Disk;
use mp_page::Page;
use mp_report::print_page;
use mp_store::{Store, StoreRefusal};
use std::alloc::Global;

/// How many pages a store has.
const PAGES: u16 = 4096;

/// The text of the store on a disk: its header, its taken pages, and how many they are. `NotStore` comes exactly where
/// the file is off the grammar, at the place of the first fault; `Disk` only where the disk's count of faults rose;
/// `Memory` where there is none. The disk is synced and read, and keeps what it holds. `docs/formats.md` has the text.
pub fn dump<D: Disk>(alloc: Global, disk: &mut D) -> Result<Text, StoreRefusal>
    ensures tells { D.tells disk.new ≡ D.tells disk.old }
    ensures quiet { Quiet (D.seen disk.old) (D.image disk.old) (D.seen disk.new) (D.image disk.new) }
    ensures text { IsTrue (D.tells disk.old) → IfOk result (λ text. text.items ≡ dump_text (D.seen disk.old)) }
    ensures finds { IsTrue (D.tells disk.old) → StoreFinds (store_fault (D.seen disk.old)) result }
    ensures count { D.faults disk.old ≤ D.faults disk.new }
    ensures cause { StoreCause (D.faults disk.old) (D.faults disk.new) result }
{
    let mut store = match Store::open(alloc, disk) {
        Ok(store) => store,
        Err(unopened) => return Err(unopened.refusal),
    };
    let map = store.read_map()?;
    print_store(alloc, &mut store, &map)
}

// The text of an open store with this map. What was opened without a fault isn't refused by its grammar.
#[tactic(auto, unfolding(crate::specs::Dumps::store_text))]
fn print_store<D: Disk>(
    alloc: Global,
    store: &mut Store<'_, D>,
    map: &Page,
) -> Result<Text, StoreRefusal>
    requires meta { IsTrue (is_of Meta map.now) }
    requires open { store.old.live ≡ true }
    ensures same_reference { store.new.disk.ghost_name ≡ store.old.disk.ghost_name }
    ensures kept { KeptDisk D.Disk store.old.disk.now store.new.disk.now }
    ensures text { IsTrue (D.tells store.old.disk.now)
        → IfOk result (λ text. text.items ≡ store_text store.old.header map.now (D.seen store.old.disk.now)) }
    ensures sound { IsTrue (D.tells store.old.disk.now) → store_fault (D.seen store.old.disk.now) ≡ None
        → StoreFinds None result }
    ensures cause { StoreCause (D.faults store.old.disk.now) (D.faults store.new.disk.now) result }
{
    let mut text = Text::new(alloc);
    or_memory(push_header(&mut text, &store.header()))?;
    push_pages(alloc, store, map, &mut text)?;
    or_memory(push_end(&mut text, map.count()))?;
    Ok(text)
}

// Adds the texts of the taken pages.
fn push_pages<D: Disk>(
    alloc: Global,
    store: &mut Store<'_, D>,
    map: &Page,
    text: &mut Text,
) -> Result<(), StoreRefusal>
    requires meta { IsTrue (is_of Meta map.now) }
    requires open { store.old.live ≡ true }
    ensures same_reference { store.new.disk.ghost_name ≡ store.old.disk.ghost_name }
    ensures kept { KeptDisk D.Disk store.old.disk.now store.new.disk.now }
    ensures text { IsTrue (D.tells store.old.disk.now) → OnOk result
        (text.new.items
        ≡ text.old.items ++ taken_texts store.old.header.generation map.now 4096 (D.seen store.old.disk.now)) }
    ensures sound { IsTrue (D.tells store.old.disk.now) → store_fault (D.seen store.old.disk.now) ≡ None
        → StoreFinds None result }
    ensures cause { StoreCause (D.faults store.old.disk.now) (D.faults store.new.disk.now) result }
{
    for number in 0..PAGES {
        push_taken(alloc, store, map, number, text)?;
    }
    Ok(())
}

// Adds the text of a page, where it is taken.
#[tactic(auto, unfolding(crate::specs::Dumps::taken_text))]
fn push_taken<D: Disk>(
    alloc: Global,
    store: &mut Store<'_, D>,
    map: &Page,
    number: u16,
    text: &mut Text,
) -> Result<(), StoreRefusal>
    requires meta { IsTrue (is_of Meta map.now) }
    requires range { number < 4096 }
    requires open { store.old.live ≡ true }
    ensures same_reference { store.new.disk.ghost_name ≡ store.old.disk.ghost_name }
    ensures header { store.new.header ≡ store.old.header }
    ensures live { store.new.live ≡ true }
    ensures kept { KeptDisk D.Disk store.old.disk.now store.new.disk.now }
    ensures text { IsTrue (D.tells store.old.disk.now) → OnOk result
        (text.new.items
        ≡ text.old.items ++ taken_text store.old.header.generation map.now number (D.seen store.old.disk.now)) }
    ensures sound { IsTrue (D.tells store.old.disk.now) → store_fault (D.seen store.old.disk.now) ≡ None
        → StoreFinds None result }
    ensures cause { StoreCause (D.faults store.old.disk.now) (D.faults store.new.disk.now) result }
{
    if !map.taken(number) {
        return Ok(());
    }
    let page = store.read_page(number)?;
    or_memory(push_page(alloc, number, &page, text))
}

// Adds the text of a page.
fn push_page(alloc: Global, number: u16, page: &Page, text: &mut Text) -> Result<(), Memory>
    ensures { OnOk result (text.new.items ≡ text.old.items ++ page_text number page.now) }
{
    let more = print_page(alloc, number, page)?;
    text.extend(more.as_slice())
}

// Want of memory as a refusal.
fn or_memory(pushed: Result<(), Memory>) -> Result<(), StoreRefusal>
    ensures ok { OnOk result (IsOk pushed) }
    ensures finds { StoreFinds None result }
    ensures cause { (old : ℕ) (new : ℕ) → StoreCause old new result }
{
    match pushed {
        Ok(()) => Ok(()),
        Err(Memory) => Err(StoreRefusal::Memory),
    }
}
