//! What recovery reads and makes before it writes.

ghost use Rattle.std.specs.Prelude.{◌≡◌, length, IfOk, IfErr, OnOk};
ghost use Rattle.mp_files.specs.Nine.{AllTell, KeptNine, as_read};
ghost use Rattle.mp_outside.specs.Disks.{Only};
ghost use Rattle.mp_store.specs.HeaderSides.{IsHeader};
ghost use Rattle.mp_recover.specs.Checkpoints.{RecoverCause};
ghost use Rattle.mp_recover.specs.Loading.{StoredFinds, RollsBack};
ghost use Rattle.mp_recover.specs.Recovering.{LoadFinds, LoadedFits};

use crate::checkpoints::{of_log, of_store};
use crate::found::Found;
use crate::reading::read_logs;
use crate::redoing_logs::redo_logs;
use crate::refusals::RecoverRefusal;
use crate::rows::{AllPages, present_rows};
use crate::settling::roll_back_losers;
use mp_checkpoint::{read_pages, sync_logs};
use mp_files::Disks;
use mp_model::{Memory, Rows};
use mp_outside::Disk;
use mp_page::Pages;
use mp_store::{Header, Store};
use std::alloc::Global;

/// The header and the pages of a store.
#[derive(Debug, Drop)]
pub(crate) struct Stored {
    pub(crate) header: Header,
    pub(crate) pages: Pages,
}

/// The header of a store, its pages redone and rolled back, what redoing found, how many rows were rolled back, and the
/// rows with values.
#[derive(Debug, Drop)]
pub struct Loaded {
    pub header: Header,
    pub pages: Pages,
    pub found: Found,
    pub undone: u64,
    pub rows: Rows,
}

/// Reads nine disks, redoes what the logs hold above the base, and rolls back what didn't commit. Nothing is written.
/// Refusals come as `recover` has them, but for `Spent`.
pub(crate) fn load<D: Disk>(alloc: Global, disks: &mut Disks<D>) -> Result<Loaded, RecoverRefusal>
    requires { length disks.old.logs.items ≡ 8 }
    ensures kept { KeptNine D.Disk disks.old disks.new }
    ensures finds { AllTell D.Disk disks.old → LoadFinds (as_read D.Disk disks.old) result }
    ensures safe { AllTell D.Disk disks.old
        → OnOk result (Only (D.seen disks.new.store) (D.image disks.new.store)) }
    ensures fits { IfOk result LoadedFits }
    ensures cause { IfErr result (RecoverCause D.Disk disks.old disks.new) }
{
    let mut stored = match read_stored(alloc, disks) {
        Ok(stored) => stored,
        Err(refusal) => return Err(refusal),
    };
    match read_logs(alloc, &mut disks.logs) {
        Ok(()) => (),
        Err(refusal) => return Err(refusal),
    }
    let found = match redo_logs(alloc, disks, &stored.header, &mut stored.pages) {
        Ok(found) => found,
        Err(refusal) => return Err(refusal),
    };
    match roll_back(alloc, stored, found) {
        Ok(loaded) => Ok(loaded),
        Err(Memory) => Err(RecoverRefusal::Memory),
    }
}

// Opens the store, which syncs it, then syncs the logs, and only then takes memory for the pages.
fn read_stored<D: Disk>(alloc: Global, disks: &mut Disks<D>) -> Result<Stored, RecoverRefusal>
    requires { length disks.old.logs.items ≡ 8 }
    ensures kept { KeptNine D.Disk disks.old disks.new }
    ensures finds { AllTell D.Disk disks.old → StoredFinds (D.seen disks.old.store) result }
    ensures safe { AllTell D.Disk disks.old
        → OnOk result (Only (D.seen disks.new.store) (D.image disks.new.store)) }
    ensures header { IfOk result (λ stored. IsHeader stored.header) }
    ensures count { IfOk result (λ stored. length stored.pages.items ≡ 4096) }
    ensures cause { IfErr result (RecoverCause D.Disk disks.old disks.new) }
{
    let mut store = match Store::open(alloc, &mut disks.store) {
        Ok(store) => store,
        Err(unopened) => return Err(of_store(unopened.refusal)),
    };
    match sync_logs(&mut disks.logs) {
        Ok(()) => (),
        Err(failed) => return Err(of_log(failed)),
    }
    let header = store.header();
    match read_pages(alloc, &mut store) {
        Ok(pages) => Ok(Stored { header, pages }),
        Err(refusal) => Err(of_store(refusal)),
    }
}

// Rolls back what isn't among the commits that were found, and collects the rows.
fn roll_back(alloc: Global, stored: Stored, found: Found) -> Result<Loaded, Memory>
    requires { length stored.pages.items ≡ 4096 }
    ensures { IfOk result (RollsBack stored found) }
{
    let Stored { header, mut pages } = stored;
    let undone = roll_back_losers(&mut pages, &found.ids);
    let mut all = AllPages { pages };
    let rows = present_rows(alloc, &mut all)?;
    let AllPages { pages } = all;
    Ok(Loaded {
        header,
        pages,
        found,
        undone,
        rows,
    })
}
