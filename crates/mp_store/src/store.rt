//! The store.

ghost use Rattle.std.specs.Prelude.{None, length, true, false, ◌≡◌, ◌≢◌, ℕ, ◌<◌, ◌≤◌, IsTrue, List, IfOk, IfErr, OnOk, OnErr, Err};
ghost use Rattle.mp_outside.specs.Faults.{Rose};
ghost use Rattle.mp_outside.specs.Disks.{written, Quiet};
ghost use Rattle.mp_cells.specs.PageMaps.{page_at};
ghost use Rattle.mp_cells.specs.PageView.{IsPage};
ghost use Rattle.mp_store.specs.declared.sides.Side.{Side};
ghost use Rattle.mp_store.specs.Layout.{store_length, page_side};
ghost use Rattle.mp_store.specs.HeaderSides.{IsHeader, header_body};
ghost use Rattle.mp_store.specs.PageSides.{page_body};
ghost use Rattle.mp_store.specs.StoreFiles.{header_in_force, page_in_force, page_fault_in_force, homes_fault, roots_fault, is_map, is_root, map_fault, store_fault};
ghost use Rattle.mp_store.specs.Answers.{StoreFinds, StoreCause, NeedsNoMemory};
ghost use Rattle.mp_store.specs.SideWrites.{SideLeft, PageLeft, HeaderLeft, open_side, yields, kept_side, idle_place, idle_header_place};
ghost use Rattle.mp_store.specs.OpenStores.{IsOpenOn, NoLater, LaterLeft};
ghost use Rattle.mp_store.specs.Passes.{WrittenBeside, AllWritten};

use crate::checking::read_map_in_force;
use crate::headers::Header;
use crate::later::close_all_later;
use crate::opening::check_all;
use crate::passes::write_together;
use crate::reading::read_in_force;
use crate::refusals::StoreRefusal;
use crate::updates::{flip_over, write_page_over};
use mp_outside::{Disk, Failed};
use mp_page::{Page, Pages};
use std::alloc::Global;

/// A store that was opened on a disk, which it borrows. It keeps the header in force and no page. It is open until one
/// of its writes fails; then the store is opened again, since the file may hold the write or not. While it is open, a
/// crash leaves what a read gives and nothing else, and its header is the one in force.
#[derive(Drop)]
pub struct Store<'a, D: Disk> {
    disk: &'a mut D,
    header: Header,
    live: bool,
    ghost is_header: { IsHeader header },
    ghost long: { store_length ≤ D.known disk.now },
    ghost stands: { live ≡ true → IsTrue (D.tells disk.now) → IsOpenOn header (D.seen disk.now) (D.image disk.now) },
}

/// A disk whose store wasn't opened, and why.
#[derive(Drop)]
pub struct Unopened<'a, D: Disk> {
    /// Why.
    pub refusal: StoreRefusal,
    /// The disk, which reads as before.
    pub disk: &'a mut D,
}

impl<'a, D: Disk> Store<'a, D> {
    /// Opens the store of a disk. It syncs the disk first, so that what it reads is what a crash leaves. A refusal hands
    /// the disk back, which reads as before: `NotStore` exactly where the file is off the grammar, at the place of the
    /// first fault; `Disk` only where the disk's count of faults rose. It takes no memory, and never answers `Memory`.
    /// `docs/formats.md` has the grammar and the order of the checks.
    pub fn open(_alloc: Global, disk: &'a mut D) -> Result<Store<'a, D>, Unopened<'a, D>>
        ensures same_reference { IfOk result (λ store. store.disk.ghost_name ≡ disk.entry.ghost_name) }
        ensures reference { IfErr result (λ unopened. unopened.disk.ghost_name ≡ disk.entry.ghost_name) }
        ensures live { IfOk result (λ store. store.live ≡ true) }
        ensures is { IfOk result (λ store. IsHeader store.header) }
        ensures tells { IfOk result (λ store. D.tells store.disk.now ≡ D.tells disk.old) }
        ensures still_tells { IfErr result (λ unopened. D.tells unopened.disk.now ≡ D.tells disk.old) }
        ensures quiet { IfOk result
            (λ store. Quiet (D.seen disk.old) (D.image disk.old) (D.seen store.disk.now) (D.image store.disk.now)) }
        ensures still_quiet { IfErr result
            (λ unopened. Quiet (D.seen disk.old) (D.image disk.old) (D.seen unopened.disk.now)
            (D.image unopened.disk.now)) }
        // What is opened has no fault, and shows the header in force; what isn't has this fault.
        ensures header { IsTrue (D.tells disk.old)
            → IfOk result (λ store. store.header ≡ header_in_force (D.seen disk.old)) }
        ensures sound { IsTrue (D.tells disk.old) → OnOk result (store_fault (D.seen disk.old) ≡ None) }
        ensures fault { IsTrue (D.tells disk.old)
            → IfErr result
            (λ unopened. StoreFinds {T = Unit {0}} (store_fault (D.seen disk.old)) (Err unopened.refusal)) }
        ensures opened { IsTrue (D.tells disk.old)
            → IfOk result (λ store. IsOpenOn store.header (D.seen store.disk.now) (D.image store.disk.now)) }
        ensures count { IfOk result (λ store. D.faults disk.old ≤ D.faults store.disk.now) }
        ensures still_count { IfErr result (λ unopened. D.faults disk.old ≤ D.faults unopened.disk.now) }
        ensures cause { IfErr result
            (λ unopened. StoreCause {T = Unit {0}} (D.faults disk.old) (D.faults unopened.disk.now)
            (Err unopened.refusal)) }
        ensures memory { IfErr result (λ unopened. NeedsNoMemory {T = Unit {0}} (Err unopened.refusal)) }
    {
        match check_all(disk) {
            Ok(header) => Ok(Store {
                disk,
                header,
                live: true,
            }),
            Err(refusal) => Err(Unopened { refusal, disk }),
        }
    }

    /// The header in force: the one that was when the store was opened, or the last one that was flipped to.
    pub fn header(&self) -> Header
        ensures header { result ≡ self.now.header }
        ensures is { IsHeader result }
    {
        self.header
    }

    /// Whether it is open: until a write of it fails.
    pub fn is_open(&self) -> bool
        ensures { result ≡ self.now.live }
    {
        self.live
    }

    /// The page of a number (below 4,096): the one in force, or else the blank page. The store is open. `NotStore` comes
    /// exactly where the page's side in force, as it is read now, has a fault, at that place; `Disk` only where the
    /// disk's count of faults rose. It takes no memory, and the store stays open.
    pub fn read_page(&mut self, number: u16) -> Result<Page, StoreRefusal>
        requires open { self.old.live ≡ true }
        requires number { number < 4096 }
        ensures same_reference { self.new.disk.ghost_name ≡ self.old.disk.ghost_name }
        ensures header { self.new.header ≡ self.old.header }
        ensures live { self.new.live ≡ true }
        ensures tells { D.tells self.new.disk.now ≡ D.tells self.old.disk.now }
        ensures quiet { Quiet (D.seen self.old.disk.now) (D.image self.old.disk.now) (D.seen self.new.disk.now)
            (D.image self.new.disk.now) }
        ensures is { IfOk result (λ page. IsPage page) }
        ensures page { IsTrue (D.tells self.old.disk.now)
            → IfOk result (λ page. page ≡ page_in_force self.old.header.generation number (D.seen self.old.disk.now)) }
        ensures finds { IsTrue (D.tells self.old.disk.now)
            → StoreFinds (page_fault_in_force self.old.header.generation number (D.seen self.old.disk.now)) result }
        // In a store that has no fault, no page has one.
        ensures whole { IsTrue (D.tells self.old.disk.now) → store_fault (D.seen self.old.disk.now) ≡ None
            → StoreFinds None result }
        ensures count { D.faults self.old.disk.now ≤ D.faults self.new.disk.now }
        ensures cause { StoreCause (D.faults self.old.disk.now) (D.faults self.new.disk.now) result }
        ensures memory { NeedsNoMemory result }
    {
        read_in_force(self.disk, self.header.generation, number)
    }

    /// The map of the taken pages: page 0, as `read_page` reads it, of which it is also checked, over any disk, that it
    /// is a meta page that has pages 0 and 1 taken. The store is open. `NotStore` comes exactly where page 0's side in
    /// force has a fault, at that place, or isn't such a page, at place 128; `Disk` only where the disk's count of faults
    /// rose. It takes no memory, and the store stays open.
    pub fn read_map(&mut self) -> Result<Page, StoreRefusal>
        requires open { self.old.live ≡ true }
        ensures same_reference { self.new.disk.ghost_name ≡ self.old.disk.ghost_name }
        ensures header { self.new.header ≡ self.old.header }
        ensures live { self.new.live ≡ true }
        ensures tells { D.tells self.new.disk.now ≡ D.tells self.old.disk.now }
        ensures quiet { Quiet (D.seen self.old.disk.now) (D.image self.old.disk.now) (D.seen self.new.disk.now)
            (D.image self.new.disk.now) }
        ensures is { IfOk result (λ map. IsPage map) }
        ensures map { IfOk result (λ map. IsTrue (is_map map)) }
        ensures page { IsTrue (D.tells self.old.disk.now)
            → IfOk result (λ map. map ≡ page_in_force self.old.header.generation 0 (D.seen self.old.disk.now)) }
        ensures finds { IsTrue (D.tells self.old.disk.now)
            → StoreFinds (map_fault self.old.header.generation (D.seen self.old.disk.now)) result }
        // In a store that has no fault, the map has none.
        ensures whole { IsTrue (D.tells self.old.disk.now) → store_fault (D.seen self.old.disk.now) ≡ None
            → StoreFinds None result }
        ensures count { D.faults self.old.disk.now ≤ D.faults self.new.disk.now }
        ensures cause { StoreCause (D.faults self.old.disk.now) (D.faults self.new.disk.now) result }
        ensures memory { NeedsNoMemory result }
    {
        read_map_in_force(self.disk, self.header.generation)
    }

    /// Closes the gate of each open side of a page of a later generation than the store's, by one write each, and makes
    /// that safe by one sync. The store is open. `Failed` comes only where the disk's count of faults rose; then the
    /// store is closed. Whatever it answers, the store shows what it showed, also after a crash. It takes no memory.
    pub fn close_later(&mut self) -> Result<(), Failed>
        requires open { self.old.live ≡ true }
        ensures same_reference { self.new.disk.ghost_name ≡ self.old.disk.ghost_name }
        ensures header { self.new.header ≡ self.old.header }
        ensures live { OnOk result (self.new.live ≡ true) }
        ensures shut { OnErr result (self.new.live ≡ false) }
        ensures tells { D.tells self.new.disk.now ≡ D.tells self.old.disk.now }
        // Whatever it answers, a crash leaves the same header, and the same pages in each generation up to the store's.
        ensures left { IsTrue (D.tells self.old.disk.now) → (c : List ℕ) → D.image self.new.disk.now c
            → LaterLeft self.old.header.generation (D.seen self.old.disk.now) c }
        // After Ok no page has an open side of a later generation.
        ensures closed { IsTrue (D.tells self.old.disk.now)
            → OnOk result (NoLater self.old.header.generation (D.seen self.new.disk.now)) }
        ensures count { D.faults self.old.disk.now ≤ D.faults self.new.disk.now }
        ensures cause { OnErr result (Rose (D.faults self.old.disk.now) (D.faults self.new.disk.now)) }
    {
        let done = close_all_later(self.disk, self.header.generation);
        self.live = done.is_ok();
        done
    }

    /// Writes a page's side that isn't in force: closes its gate where it is open, writes the generation (1 or more)
    /// and the page, and opens it, each made safe before the next. The store is open. `Failed` comes only where the
    /// disk's count of faults rose; then the store is closed. It takes no memory.
    pub fn write_page(&mut self, number: u16, page: &Page, generation: u64) -> Result<(), Failed>
        requires open { self.old.live ≡ true }
        requires number { number < 4096 }
        requires generation { 1 ≤ generation }
        ensures same_reference { self.new.disk.ghost_name ≡ self.old.disk.ghost_name }
        ensures header { self.new.header ≡ self.old.header }
        ensures live { OnOk result (self.new.live ≡ true) }
        ensures shut { OnErr result (self.new.live ≡ false) }
        ensures tells { D.tells self.new.disk.now ≡ D.tells self.old.disk.now }
        // After Ok the file is the one read before with the side in it, open and whole.
        ensures done { IsTrue (D.tells self.old.disk.now) → OnOk result (D.seen self.new.disk.now
            ≡ written (idle_place self.old.header.generation number (D.seen self.old.disk.now))
            (open_side (page_body generation page.now)) (D.seen self.old.disk.now)) }
        // So it is the page in force wherever its generation counts and the other side doesn't count or is smaller.
        ensures shown { IsTrue (D.tells self.old.disk.now) → (g : ℕ) → generation ≤ g
            → IsTrue (yields g generation page.now.llsn
            (kept_side self.old.header.generation number (D.seen self.old.disk.now)))
            → OnOk result (page_in_force g number (D.seen self.new.disk.now) ≡ page.now) }
        // The sides of all other pages are as they were.
        ensures sides { IsTrue (D.tells self.old.disk.now) → (other : ℕ) (side : Side) → other ≢ number
            → page_side other side (D.seen self.new.disk.now) ≡ page_side other side (D.seen self.old.disk.now) }
        // Whatever it answers, a crash leaves the side as it was, not open, or whole, and all else as it was.
        ensures images { IsTrue (D.tells self.old.disk.now) → (c : List ℕ) → D.image self.new.disk.now c
            → SideLeft (idle_place self.old.header.generation number (D.seen self.old.disk.now))
            (open_side (page_body generation page.now)) (D.seen self.old.disk.now) c }
        // So it leaves a store that shows the same header and other pages, and the old page or the new one.
        ensures views { IsTrue (D.tells self.old.disk.now) → (c : List ℕ) → D.image self.new.disk.now c
            → PageLeft self.old.header.generation number generation page.now (D.seen self.old.disk.now) c }
        // So a store file stays one, where pages 0 and 1 are what they must be; and so do its homes in each generation.
        ensures sound { IsTrue (D.tells self.old.disk.now) → store_fault (D.seen self.old.disk.now) ≡ None
            → (number ≡ 0 → IsTrue (is_map page.now)) → (number ≡ 1 → IsTrue (is_root page.now))
            → (c : List ℕ) → D.image self.new.disk.now c → store_fault c ≡ None }
        ensures homes { IsTrue (D.tells self.old.disk.now) → (c : List ℕ) → D.image self.new.disk.now c
            → (g : ℕ) → homes_fault g 4096 (D.seen self.old.disk.now) ≡ None → homes_fault g 4096 c ≡ None }
        ensures count { D.faults self.old.disk.now ≤ D.faults self.new.disk.now }
        ensures cause { OnErr result (Rose (D.faults self.old.disk.now) (D.faults self.new.disk.now)) }
    {
        let done = write_page_over(self.disk, &self.header, number, page, generation);
        self.live = done.is_ok();
        done
    }

    /// Writes the marked ones of 4,096 pages, each into its side that isn't in force, with the LLSN and the generation of
    /// a header. It closes the gates that are open, fills in the bodies, and opens the gates, and one sync makes each of
    /// the three safe before the next. The store is open, and the header's generation is above the store's. `Failed`
    /// comes only where the disk's count of faults rose; then the store is closed. It takes no memory.
    pub fn write_pages(
        &mut self,
        marks: &Vec<bool>,
        pages: &Pages,
        header: &Header,
    ) -> Result<(), Failed>
        requires open { self.old.live ≡ true }
        requires marks { length marks.now.items ≡ 4096 }
        requires pages { length pages.now.items ≡ 4096 }
        requires header { IsHeader header.now }
        requires generation { self.old.header.generation < header.now.generation }
        ensures same_reference { self.new.disk.ghost_name ≡ self.old.disk.ghost_name }
        ensures header { self.new.header ≡ self.old.header }
        ensures live { OnOk result (self.new.live ≡ true) }
        ensures shut { OnErr result (self.new.live ≡ false) }
        ensures tells { D.tells self.new.disk.now ≡ D.tells self.old.disk.now }
        // Whatever it answers, a crash leaves a store that shows what it showed.
        ensures left { IsTrue (D.tells self.old.disk.now) → (c : List ℕ) → D.image self.new.disk.now c
            → WrittenBeside self.old.header.generation (D.seen self.old.disk.now) c }
        // After Ok the new generation shows the marked pages, wherever their other sides count less.
        ensures done { IsTrue (D.tells self.old.disk.now)
            → OnOk result (AllWritten self.old.header.generation header.now.generation header.now.llsn marks.now.items
            (page_at pages.now.items) (D.seen self.old.disk.now) (D.seen self.new.disk.now)) }
        ensures count { D.faults self.old.disk.now ≤ D.faults self.new.disk.now }
        ensures cause { OnErr result (Rose (D.faults self.old.disk.now) (D.faults self.new.disk.now)) }
    {
        let done = write_together(self.disk, self.header.generation, marks, pages, header);
        self.live = done.is_ok();
        done
    }

    /// Writes the header's side that isn't in force, as `write_page` does a page's. The store is open, and the new
    /// header's generation is above that of the one in force. After Ok it is the store's header. `Failed` comes only
    /// where the disk's count of faults rose; then the store is closed. It takes no memory.
    pub fn flip_header(&mut self, header: &Header) -> Result<(), Failed>
        requires open { self.old.live ≡ true }
        requires header { IsHeader header.now }
        requires generation { self.old.header.generation < header.now.generation }
        ensures same_reference { self.new.disk.ghost_name ≡ self.old.disk.ghost_name }
        ensures flipped { OnOk result (self.new.header ≡ header.now) }
        ensures kept { OnErr result (self.new.header ≡ self.old.header) }
        ensures live { OnOk result (self.new.live ≡ true) }
        ensures shut { OnErr result (self.new.live ≡ false) }
        ensures tells { D.tells self.new.disk.now ≡ D.tells self.old.disk.now }
        // After Ok the file is the one read before with the side in it, open and whole.
        ensures done { IsTrue (D.tells self.old.disk.now) → OnOk result (D.seen self.new.disk.now
            ≡ written (idle_header_place (D.seen self.old.disk.now)) (open_side (header_body header.now))
            (D.seen self.old.disk.now)) }
        // So the new header is the one in force.
        ensures shown { IsTrue (D.tells self.old.disk.now)
            → OnOk result (header_in_force (D.seen self.new.disk.now) ≡ header.now) }
        // Whatever it answers, a crash leaves the side as it was, not open, or whole, and all else as it was.
        ensures images { IsTrue (D.tells self.old.disk.now) → (c : List ℕ) → D.image self.new.disk.now c
            → SideLeft (idle_header_place (D.seen self.old.disk.now)) (open_side (header_body header.now))
            (D.seen self.old.disk.now) c }
        // So it leaves a store that shows the same pages in each generation, and the old header or the new one.
        ensures views { IsTrue (D.tells self.old.disk.now) → (c : List ℕ) → D.image self.new.disk.now c
            → HeaderLeft header.now (D.seen self.old.disk.now) c }
        // So a store file stays one, where the pages that the new header brings in force have no fault.
        ensures sound { IsTrue (D.tells self.old.disk.now) → store_fault (D.seen self.old.disk.now) ≡ None
            → homes_fault header.now.generation 4096 (D.seen self.old.disk.now) ≡ None
            → roots_fault header.now.generation (D.seen self.old.disk.now) ≡ None
            → (c : List ℕ) → D.image self.new.disk.now c → store_fault c ≡ None }
        ensures count { D.faults self.old.disk.now ≤ D.faults self.new.disk.now }
        ensures cause { OnErr result (Rose (D.faults self.old.disk.now) (D.faults self.new.disk.now)) }
    {
        match flip_over(self.disk, &self.header, header) {
            Ok(()) => {
                self.header = *header;
                Ok(())
            }
            Err(failed) => {
                self.live = false;
                Err(failed)
            }
        }
    }
}
