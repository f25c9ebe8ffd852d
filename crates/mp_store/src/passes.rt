//! Sides of many pages that aren't in force, written in three passes, each of which one sync makes safe.

ghost use Rattle.std.specs.Prelude.{◌≡◌, ◌≢◌, true, false, ℕ, ◌+◌, ◌<◌, ◌≤◌, ◌^◌, Bool, IsTrue, List, OnOk, OnErr, length, drop};
ghost use Rattle.mp_outside.specs.Faults.{Rose};
ghost use Rattle.mp_outside.specs.Disks.{Only, Counts};
ghost use Rattle.mp_cells.specs.PageMaps.{page_at};
ghost use Rattle.mp_cells.specs.PageView.{IsPage};
ghost use Rattle.mp_store.specs.declared.sides.Side.{Side};
ghost use Rattle.mp_store.specs.HeaderSides.{IsHeader};
ghost use Rattle.mp_store.specs.Layout.{store_length, is_open, page_place, page_side};
ghost use Rattle.mp_store.specs.PageSides.{counts};
ghost use Rattle.mp_store.specs.SideWrites.{open_side};
ghost use Rattle.mp_store.specs.Passes.{is_marked, idle_side, renewed, bodies_of, AllPassed, PassDone, PassedBelow, PagesBelow, WrittenBeside, AllWritten};

use crate::headers::Header;
use crate::page_sides::{idle, page_body, side_in_force};
use crate::reading::{page_place, read_home};
use crate::sides::{OPEN, Side};
use crate::writing::{CLOSED, is_gate_open};
use mp_outside::{Disk, Failed};
use mp_page::Pages;

/// How many pages a store has.
const PAGES: u16 = 4096;

/// What a pass does to a side: it closes the gate, fills in the body, or opens the gate.
#[derive(Clone, Copy, Debug, PartialEq, Eq)]
pub(crate) enum Pass {
    Close,
    Fill,
    Open,
}

// Makes a pass's write to a page's side. A gate that is closed isn't written. It isn't synced.
fn change_side<D: Disk>(
    disk: &mut D,
    pass: Pass,
    number: u16,
    side: Side,
    was_open: bool,
    body: &[u8],
) -> Result<(), Failed>
    requires number { number < 4096 }
    requires body { length body.now ≡ 1039 }
    ensures tells { D.tells disk.new ≡ D.tells disk.old }
    ensures kept { IsTrue (D.tells disk.old) → (store : ℕ) (marks : List Bool) (bodies : ℕ → List ℕ) (file : List ℕ)
        → is_marked marks number ≡ true → side ≡ idle_side store number file
        → was_open ≡ is_open (page_side number side (D.seen disk.old))
        → AllPassed pass store marks bodies file (D.seen disk.old) (D.image disk.old)
        → AllPassed pass store marks bodies file (D.seen disk.new) (D.image disk.new) }
    ensures done { IsTrue (D.tells disk.old) → store_length ≤ length (D.seen disk.old)
        → was_open ≡ is_open (page_side number side (D.seen disk.old))
        → OnOk result (PassDone pass body.now (page_side number side (D.seen disk.new))) }
    ensures others { IsTrue (D.tells disk.old) → store_length ≤ length (D.seen disk.old)
        → (n : ℕ) (s : Side) → page_place n s ≢ page_place number side
        → OnOk result (page_side n s (D.seen disk.new) ≡ page_side n s (D.seen disk.old)) }
    ensures known { D.known disk.old ≤ D.known disk.new }
    ensures counts { Counts result (D.faults disk.old) (D.faults disk.new) }
{
    let place = page_place(number, side);
    match pass {
        Pass::Close => {
            if was_open {
                disk.write_at(place, &[CLOSED])
            } else {
                Ok(())
            }
        }
        Pass::Fill => disk.write_at(place + 1, body),
        Pass::Open => disk.write_at(place, &[OPEN]),
    }
}

// Makes a pass's write to the side of a page that isn't in force in a store of a generation. It isn't synced.
fn change_idle<D: Disk>(
    disk: &mut D,
    pass: Pass,
    store: u64,
    number: u16,
    body: &[u8],
) -> Result<(), Failed>
    requires number { number < 4096 }
    requires body { length body.now ≡ 1039 }
    ensures tells { D.tells disk.new ≡ D.tells disk.old }
    ensures kept { IsTrue (D.tells disk.old) → (marks : List Bool) (bodies : ℕ → List ℕ) (file : List ℕ)
        → is_marked marks number ≡ true → counts store (open_side (bodies number)) ≡ false
        → AllPassed pass store marks bodies file (D.seen disk.old) (D.image disk.old)
        → AllPassed pass store marks bodies file (D.seen disk.new) (D.image disk.new) }
    ensures done { IsTrue (D.tells disk.old) → (marks : List Bool) (bodies : ℕ → List ℕ) (file : List ℕ)
        → is_marked marks number ≡ true → bodies number ≡ body.now → counts store (open_side (bodies number)) ≡ false
        → AllPassed pass store marks bodies file (D.seen disk.old) (D.image disk.old)
        → PassedBelow number pass store marks bodies file (D.seen disk.old)
        → OnOk result (PassedBelow (number + 1) pass store marks bodies file (D.seen disk.new)) }
    ensures known { D.known disk.old ≤ D.known disk.new }
    ensures count { D.faults disk.old ≤ D.faults disk.new }
    ensures cause { store_length ≤ D.known disk.old → OnErr result (Rose (D.faults disk.old) (D.faults disk.new)) }
{
    let home = read_home(disk, number)?;
    let (first, second) = home.split_at(1040);
    let side = idle(side_in_force(store, first, second));
    let was_open = is_gate_open(side, first, second);
    change_side(disk, pass, number, side, was_open, body)
}

// Makes a pass's write for a page, with a header's LLSN and generation. It isn't synced.
fn change_page<D: Disk>(
    disk: &mut D,
    pass: Pass,
    store: u64,
    number: u16,
    pages: &Pages,
    header: &Header,
) -> Result<(), Failed>
    requires number { number < 4096 }
    requires pages { length pages.now.items ≡ 4096 }
    requires header { IsHeader header.now }
    requires generation { store < header.now.generation }
    ensures tells { D.tells disk.new ≡ D.tells disk.old }
    ensures kept { IsTrue (D.tells disk.old) → (marks : List Bool) (file : List ℕ) → is_marked marks number ≡ true
        → AllPassed pass store marks (bodies_of header.now.generation header.now.llsn (page_at pages.now.items))
        file (D.seen disk.old) (D.image disk.old)
        → AllPassed pass store marks (bodies_of header.now.generation header.now.llsn (page_at pages.now.items))
        file (D.seen disk.new) (D.image disk.new) }
    ensures done { IsTrue (D.tells disk.old) → (marks : List Bool) (file : List ℕ) → is_marked marks number ≡ true
        → AllPassed pass store marks (bodies_of header.now.generation header.now.llsn (page_at pages.now.items))
        file (D.seen disk.old) (D.image disk.old)
        → PassedBelow number pass store marks (bodies_of header.now.generation header.now.llsn (page_at pages.now.items))
        file (D.seen disk.old)
        → OnOk result (PassedBelow (number + 1) pass store marks (bodies_of header.now.generation header.now.llsn (page_at pages.now.items))
        file (D.seen disk.new)) }
    ensures page { IsPage (renewed header.now.llsn (page_at pages.now.items) number) }
    ensures known { D.known disk.old ≤ D.known disk.new }
    ensures count { D.faults disk.old ≤ D.faults disk.new }
    ensures cause { store_length ≤ D.known disk.old → OnErr result (Rose (D.faults disk.old) (D.faults disk.new)) }
{
    let mut page = *pages.get(usize::from(number));
    page.set_llsn(header.llsn);
    change_idle(
        disk,
        pass,
        store,
        number,
        &page_body(header.generation, &page),
    )
}

// The same, where the page is marked.
fn change_marked<D: Disk>(
    disk: &mut D,
    pass: Pass,
    store: u64,
    number: u16,
    marks: &Vec<bool>,
    pages: &Pages,
    header: &Header,
) -> Result<(), Failed>
    requires number { number < 4096 }
    requires marks { length marks.now.items ≡ 4096 }
    requires pages { length pages.now.items ≡ 4096 }
    requires header { IsHeader header.now }
    requires generation { store < header.now.generation }
    ensures tells { D.tells disk.new ≡ D.tells disk.old }
    ensures kept { IsTrue (D.tells disk.old) → (file : List ℕ)
        → AllPassed pass store marks.now.items (bodies_of header.now.generation header.now.llsn (page_at pages.now.items))
        file (D.seen disk.old) (D.image disk.old)
        → AllPassed pass store marks.now.items (bodies_of header.now.generation header.now.llsn (page_at pages.now.items))
        file (D.seen disk.new) (D.image disk.new) }
    ensures done { IsTrue (D.tells disk.old) → (file : List ℕ)
        → AllPassed pass store marks.now.items (bodies_of header.now.generation header.now.llsn (page_at pages.now.items))
        file (D.seen disk.old) (D.image disk.old)
        → PassedBelow number pass store marks.now.items (bodies_of header.now.generation header.now.llsn (page_at pages.now.items))
        file (D.seen disk.old)
        → OnOk result (PassedBelow (number + 1) pass store marks.now.items (bodies_of header.now.generation header.now.llsn (page_at pages.now.items))
        file (D.seen disk.new)) }
    ensures pages { PagesBelow number marks.now.items header.now.llsn (page_at pages.now.items)
        → PagesBelow (number + 1) marks.now.items header.now.llsn (page_at pages.now.items) }
    ensures known { D.known disk.old ≤ D.known disk.new }
    ensures count { D.faults disk.old ≤ D.faults disk.new }
    ensures cause { store_length ≤ D.known disk.old → OnErr result (Rose (D.faults disk.old) (D.faults disk.new)) }
{
    if !marks[usize::from(number)] {
        return Ok(());
    }
    change_page(disk, pass, store, number, pages, header)
}

// Makes a pass's writes for all marked pages. They aren't synced.
fn change_all<D: Disk>(
    disk: &mut D,
    pass: Pass,
    store: u64,
    marks: &Vec<bool>,
    pages: &Pages,
    header: &Header,
) -> Result<(), Failed>
    requires marks { length marks.now.items ≡ 4096 }
    requires pages { length pages.now.items ≡ 4096 }
    requires header { IsHeader header.now }
    requires generation { store < header.now.generation }
    ensures tells { D.tells disk.new ≡ D.tells disk.old }
    ensures kept { IsTrue (D.tells disk.old) → (file : List ℕ)
        → AllPassed pass store marks.now.items (bodies_of header.now.generation header.now.llsn (page_at pages.now.items))
        file (D.seen disk.old) (D.image disk.old)
        → AllPassed pass store marks.now.items (bodies_of header.now.generation header.now.llsn (page_at pages.now.items))
        file (D.seen disk.new) (D.image disk.new) }
    ensures done { IsTrue (D.tells disk.old) → (file : List ℕ)
        → AllPassed pass store marks.now.items (bodies_of header.now.generation header.now.llsn (page_at pages.now.items))
        file (D.seen disk.old) (D.image disk.old)
        → OnOk result (PassedBelow 4096 pass store marks.now.items (bodies_of header.now.generation header.now.llsn (page_at pages.now.items))
        file (D.seen disk.new)) }
    ensures pages { OnOk result (PagesBelow 4096 marks.now.items header.now.llsn (page_at pages.now.items)) }
    ensures known { D.known disk.old ≤ D.known disk.new }
    ensures count { D.faults disk.old ≤ D.faults disk.new }
    ensures cause { store_length ≤ D.known disk.old → OnErr result (Rose (D.faults disk.old) (D.faults disk.new)) }
{
    for number in 0..PAGES {
        change_marked(disk, pass, store, number, marks, pages, header)?;
    }
    Ok(())
}

// Makes a pass for all marked pages, and makes it safe.
fn make_pass<D: Disk>(
    disk: &mut D,
    pass: Pass,
    store: u64,
    marks: &Vec<bool>,
    pages: &Pages,
    header: &Header,
) -> Result<(), Failed>
    requires marks { length marks.now.items ≡ 4096 }
    requires pages { length pages.now.items ≡ 4096 }
    requires header { IsHeader header.now }
    requires generation { store < header.now.generation }
    ensures tells { D.tells disk.new ≡ D.tells disk.old }
    ensures kept { IsTrue (D.tells disk.old) → (file : List ℕ)
        → AllPassed pass store marks.now.items (bodies_of header.now.generation header.now.llsn (page_at pages.now.items))
        file (D.seen disk.old) (D.image disk.old)
        → AllPassed pass store marks.now.items (bodies_of header.now.generation header.now.llsn (page_at pages.now.items))
        file (D.seen disk.new) (D.image disk.new) }
    ensures done { IsTrue (D.tells disk.old) → (file : List ℕ)
        → AllPassed pass store marks.now.items (bodies_of header.now.generation header.now.llsn (page_at pages.now.items))
        file (D.seen disk.old) (D.image disk.old)
        → OnOk result (PassedBelow 4096 pass store marks.now.items (bodies_of header.now.generation header.now.llsn (page_at pages.now.items))
        file (D.seen disk.new)) }
    ensures safe { IsTrue (D.tells disk.old) → OnOk result (Only (D.seen disk.new) (D.image disk.new)) }
    ensures pages { OnOk result (PagesBelow 4096 marks.now.items header.now.llsn (page_at pages.now.items)) }
    ensures known { D.known disk.old ≤ D.known disk.new }
    ensures count { D.faults disk.old ≤ D.faults disk.new }
    ensures cause { store_length ≤ D.known disk.old → OnErr result (Rose (D.faults disk.old) (D.faults disk.new)) }
{
    change_all(disk, pass, store, marks, pages, header)?;
    disk.sync()
}

/// Writes the marked pages' sides that aren't in force in a store of a generation, with the LLSN and the later generation
/// of a header. Gates, bodies and gates again are each made safe before the next.
pub(crate) fn write_together<D: Disk>(
    disk: &mut D,
    store: u64,
    marks: &Vec<bool>,
    pages: &Pages,
    header: &Header,
) -> Result<(), Failed>
    requires marks { length marks.now.items ≡ 4096 }
    requires pages { length pages.now.items ≡ 4096 }
    requires header { IsHeader header.now }
    requires generation { store < header.now.generation }
    ensures tells { D.tells disk.new ≡ D.tells disk.old }
    ensures left { IsTrue (D.tells disk.old) → store_length ≤ length (D.seen disk.old)
        → Only (D.seen disk.old) (D.image disk.old)
        → (c : List ℕ) → D.image disk.new c → WrittenBeside store (D.seen disk.old) c }
    ensures done { IsTrue (D.tells disk.old) → store_length ≤ length (D.seen disk.old)
        → Only (D.seen disk.old) (D.image disk.old)
        → OnOk result (AllWritten store header.now.generation header.now.llsn marks.now.items (page_at pages.now.items)
        (D.seen disk.old) (D.seen disk.new)) }
    ensures safe { IsTrue (D.tells disk.old) → OnOk result (Only (D.seen disk.new) (D.image disk.new)) }
    ensures known { D.known disk.old ≤ D.known disk.new }
    ensures count { D.faults disk.old ≤ D.faults disk.new }
    ensures cause { store_length ≤ D.known disk.old → OnErr result (Rose (D.faults disk.old) (D.faults disk.new)) }
{
    make_pass(disk, Pass::Close, store, marks, pages, header)?;
    make_pass(disk, Pass::Fill, store, marks, pages, header)?;
    make_pass(disk, Pass::Open, store, marks, pages, header)
}
