//! Sides that aren't in force, written over: what the store then shows, and what a crash leaves.

ghost use Rattle.std.specs.Prelude.{None, ◌≡◌, ◌≢◌, ℕ, ◌<◌, ◌≤◌, ◌^◌, IsTrue, List, OnOk, OnErr};
ghost use Rattle.mp_outside.specs.Faults.{Rose};
ghost use Rattle.mp_outside.specs.Disks.{written, Only};
ghost use Rattle.mp_store.specs.declared.sides.Side.{Side};
ghost use Rattle.mp_store.specs.Layout.{store_length, page_side};
ghost use Rattle.mp_store.specs.HeaderSides.{IsHeader, header_body};
ghost use Rattle.mp_store.specs.PageSides.{page_body};
ghost use Rattle.mp_store.specs.StoreFiles.{header_in_force, page_in_force, homes_fault, roots_fault, is_map, is_root, store_fault};
ghost use Rattle.mp_store.specs.SideWrites.{SideLeft, PageLeft, HeaderLeft, open_side, yields, kept_side, idle_place, idle_header_place};

use crate::header_sides::header_body;
use crate::headers::Header;
use crate::page_sides::page_body;
use crate::writing::{write_header_side, write_page_side};
use mp_outside::{Disk, Failed};
use mp_page::Page;

/// Writes a page's side that isn't in force in a store of this header, with a generation of its own.
pub(crate) fn write_page_over<D: Disk>(
    disk: &mut D,
    store: &Header,
    number: u16,
    page: &Page,
    generation: u64,
) -> Result<(), Failed>
    requires number { number < 4096 }
    requires generation { 1 ≤ generation }
    ensures tells { D.tells disk.new ≡ D.tells disk.old }
    ensures done { IsTrue (D.tells disk.old) → OnOk result (D.seen disk.new
        ≡ written (idle_place store.now.generation number (D.seen disk.old))
        (open_side (page_body generation page.now)) (D.seen disk.old)) }
    ensures shown { IsTrue (D.tells disk.old) → (g : ℕ) → generation ≤ g
        → IsTrue (yields g generation page.now.llsn (kept_side store.now.generation number (D.seen disk.old)))
        → OnOk result (page_in_force g number (D.seen disk.new) ≡ page.now) }
    ensures sides { IsTrue (D.tells disk.old) → Only (D.seen disk.old) (D.image disk.old) → (other : ℕ) (side : Side)
        → other ≢ number
        → page_side other side (D.seen disk.new) ≡ page_side other side (D.seen disk.old) }
    ensures safe { IsTrue (D.tells disk.old) → Only (D.seen disk.old) (D.image disk.old)
        → OnOk result (Only (D.seen disk.new) (D.image disk.new)) }
    ensures images { IsTrue (D.tells disk.old) → Only (D.seen disk.old) (D.image disk.old) → (c : List ℕ)
        → D.image disk.new c
        → SideLeft (idle_place store.now.generation number (D.seen disk.old))
        (open_side (page_body generation page.now)) (D.seen disk.old) c }
    ensures views { IsTrue (D.tells disk.old) → Only (D.seen disk.old) (D.image disk.old) → (c : List ℕ)
        → D.image disk.new c
        → PageLeft store.now.generation number generation page.now (D.seen disk.old) c }
    ensures sound { IsTrue (D.tells disk.old) → Only (D.seen disk.old) (D.image disk.old)
        → store.now ≡ header_in_force (D.seen disk.old) → store_fault (D.seen disk.old) ≡ None
        → (number ≡ 0 → IsTrue (is_map page.now)) → (number ≡ 1 → IsTrue (is_root page.now))
        → (c : List ℕ) → D.image disk.new c → store_fault c ≡ None }
    ensures homes { IsTrue (D.tells disk.old) → Only (D.seen disk.old) (D.image disk.old) → (c : List ℕ)
        → D.image disk.new c
        → (g : ℕ) → homes_fault g 4096 (D.seen disk.old) ≡ None → homes_fault g 4096 c ≡ None }
    ensures known { D.known disk.old ≤ D.known disk.new }
    ensures count { D.faults disk.old ≤ D.faults disk.new }
    ensures cause { store_length ≤ D.known disk.old → OnErr result (Rose (D.faults disk.old) (D.faults disk.new)) }
{
    write_page_side(disk, store.generation, number, &page_body(generation, page))
}

/// Writes the header's side that isn't in force. The new header's generation is above that of the one in force.
pub(crate) fn flip_over<D: Disk>(
    disk: &mut D,
    store: &Header,
    header: &Header,
) -> Result<(), Failed>
    requires header { IsHeader header.now }
    requires generation { store.now.generation < header.now.generation }
    ensures tells { D.tells disk.new ≡ D.tells disk.old }
    ensures done { IsTrue (D.tells disk.old) → OnOk result (D.seen disk.new
        ≡ written (idle_header_place (D.seen disk.old)) (open_side (header_body header.now)) (D.seen disk.old)) }
    ensures shown { IsTrue (D.tells disk.old) → store.now ≡ header_in_force (D.seen disk.old)
        → OnOk result (header_in_force (D.seen disk.new) ≡ header.now) }
    ensures safe { IsTrue (D.tells disk.old) → Only (D.seen disk.old) (D.image disk.old)
        → OnOk result (Only (D.seen disk.new) (D.image disk.new)) }
    ensures images { IsTrue (D.tells disk.old) → Only (D.seen disk.old) (D.image disk.old) → (c : List ℕ)
        → D.image disk.new c
        → SideLeft (idle_header_place (D.seen disk.old)) (open_side (header_body header.now)) (D.seen disk.old) c }
    ensures views { IsTrue (D.tells disk.old) → Only (D.seen disk.old) (D.image disk.old) → (c : List ℕ)
        → D.image disk.new c
        → HeaderLeft header.now (D.seen disk.old) c }
    ensures sound { IsTrue (D.tells disk.old) → Only (D.seen disk.old) (D.image disk.old)
        → store.now ≡ header_in_force (D.seen disk.old) → store_fault (D.seen disk.old) ≡ None
        → homes_fault header.now.generation 4096 (D.seen disk.old) ≡ None
        → roots_fault header.now.generation (D.seen disk.old) ≡ None
        → (c : List ℕ) → D.image disk.new c → store_fault c ≡ None }
    ensures known { D.known disk.old ≤ D.known disk.new }
    ensures count { D.faults disk.old ≤ D.faults disk.new }
    ensures cause { store_length ≤ D.known disk.old → OnErr result (Rose (D.faults disk.old) (D.faults disk.new)) }
{
    // What is known of a header behind a reference.
    let _generation = store.generation;
    write_header_side(disk, &header_body(header))
}
