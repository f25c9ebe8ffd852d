//! Open sides of later generations, closed.

ghost use Rattle.std.specs.Prelude.{◌≡◌, ◌≢◌, false, ℕ, ◌+◌, ◌<◌, ◌≤◌, IsTrue, List, OnOk, OnErr, length};
ghost use Rattle.mp_outside.specs.Faults.{Rose};
ghost use Rattle.mp_outside.specs.Disks.{Only, Counts};
ghost use Rattle.mp_store.specs.declared.sides.Side.{Side};
ghost use Rattle.mp_store.specs.Layout.{store_length, page_place, page_side};
ghost use Rattle.mp_store.specs.OpenStores.{is_later, NoLaterBelow, NoLater, LaterLeft};
ghost use Rattle.mp_store.specs.LaterSides.{AllShut};

use crate::page_sides::is_later;
use crate::reading::{page_place, read_home};
use crate::sides::Side;
use mp_outside::{Disk, Failed};

/// How many pages a store has.
const PAGES: u16 = 4096;

/// The byte that closes a gate.
const CLOSED: u8 = 0;

// Closes the gate of a page's side where it is open and of a later generation. It isn't synced.
fn close_side<D: Disk>(disk: &mut D, number: u16, side: Side, later: bool) -> Result<(), Failed>
    requires { number < 4096 }
    ensures tells { D.tells disk.new ≡ D.tells disk.old }
    ensures kept { IsTrue (D.tells disk.old) → (generation : ℕ)
        → later ≡ is_later generation (page_side number side (D.seen disk.old))
        → (file : List ℕ) → store_length ≤ length file
        → AllShut generation file (D.seen disk.old) (D.image disk.old)
        → AllShut generation file (D.seen disk.new) (D.image disk.new) }
    ensures closed { IsTrue (D.tells disk.old) → (generation : ℕ)
        → later ≡ is_later generation (page_side number side (D.seen disk.old))
        → page_place number side < length (D.seen disk.old)
        → OnOk result (is_later generation (page_side number side (D.seen disk.new)) ≡ false) }
    ensures others { IsTrue (D.tells disk.old) → page_place number side < length (D.seen disk.old)
        → (n : ℕ) (s : Side) → page_place n s ≢ page_place number side
        → OnOk result (page_side n s (D.seen disk.new) ≡ page_side n s (D.seen disk.old)) }
    ensures long { IsTrue (D.tells disk.old) → page_place number side < length (D.seen disk.old)
        → OnOk result (length (D.seen disk.new) ≡ length (D.seen disk.old)) }
    ensures known { D.known disk.old ≤ D.known disk.new }
    ensures counts { Counts result (D.faults disk.old) (D.faults disk.new) }
{
    if later {
        disk.write_at(page_place(number, side), &[CLOSED])
    } else {
        Ok(())
    }
}

// Closes the gates of a page's sides that are open and of a later generation.
fn close_home<D: Disk>(disk: &mut D, generation: u64, number: u16) -> Result<(), Failed>
    requires { number < 4096 }
    ensures tells { D.tells disk.new ≡ D.tells disk.old }
    ensures kept { IsTrue (D.tells disk.old) → (file : List ℕ) → store_length ≤ length file
        → AllShut generation file (D.seen disk.old) (D.image disk.old)
        → AllShut generation file (D.seen disk.new) (D.image disk.new) }
    ensures closed { IsTrue (D.tells disk.old) → NoLaterBelow number generation (D.seen disk.old)
        → OnOk result (NoLaterBelow (number + 1) generation (D.seen disk.new)) }
    ensures known { D.known disk.old ≤ D.known disk.new }
    ensures count { D.faults disk.old ≤ D.faults disk.new }
    ensures cause { store_length ≤ D.known disk.old → OnErr result (Rose (D.faults disk.old) (D.faults disk.new)) }
{
    let home = read_home(disk, number)?;
    let (first, second) = home.split_at(1040);
    let first_later = is_later(generation, first);
    let second_later = is_later(generation, second);
    close_side(disk, number, Side::First, first_later)?;
    close_side(disk, number, Side::Second, second_later)
}

// Closes the gates of all pages' sides that are open and of a later generation.
fn close_homes<D: Disk>(disk: &mut D, generation: u64) -> Result<(), Failed>
    ensures tells { D.tells disk.new ≡ D.tells disk.old }
    ensures kept { IsTrue (D.tells disk.old) → (file : List ℕ) → store_length ≤ length file
        → AllShut generation file (D.seen disk.old) (D.image disk.old)
        → AllShut generation file (D.seen disk.new) (D.image disk.new) }
    ensures closed { IsTrue (D.tells disk.old) → OnOk result (NoLater generation (D.seen disk.new)) }
    ensures known { D.known disk.old ≤ D.known disk.new }
    ensures count { D.faults disk.old ≤ D.faults disk.new }
    ensures cause { store_length ≤ D.known disk.old → OnErr result (Rose (D.faults disk.old) (D.faults disk.new)) }
{
    for number in 0..PAGES {
        close_home(disk, generation, number)?;
    }
    Ok(())
}

/// Closes the gates of all open sides of a later generation than this one, and makes that safe.
pub(crate) fn close_all_later<D: Disk>(disk: &mut D, generation: u64) -> Result<(), Failed>
    ensures tells { D.tells disk.new ≡ D.tells disk.old }
    ensures left { IsTrue (D.tells disk.old) → store_length ≤ length (D.seen disk.old)
        → Only (D.seen disk.old) (D.image disk.old)
        → (c : List ℕ) → D.image disk.new c → LaterLeft generation (D.seen disk.old) c }
    ensures closed { IsTrue (D.tells disk.old) → OnOk result (NoLater generation (D.seen disk.new)) }
    ensures safe { IsTrue (D.tells disk.old) → OnOk result (Only (D.seen disk.new) (D.image disk.new)) }
    ensures known { D.known disk.old ≤ D.known disk.new }
    ensures count { D.faults disk.old ≤ D.faults disk.new }
    ensures cause { store_length ≤ D.known disk.old → OnErr result (Rose (D.faults disk.old) (D.faults disk.new)) }
{
    close_homes(disk, generation)?;
    disk.sync()
}
