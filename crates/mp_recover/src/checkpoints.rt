//! A checkpoint of nine disks.

ghost use Rattle.std.specs.Prelude.{◌≡◌, length, OnOk, IfErr};
ghost use Rattle.mp_cells.specs.PageMaps.{page_at};
ghost use Rattle.mp_files.specs.Nine.{AllTell, Every, StillNine};
ghost use Rattle.mp_store.specs.HeaderSides.{IsHeader};
ghost use Rattle.mp_store.specs.StoreFiles.{store_fault};
ghost use Rattle.mp_checkpoint.specs.Saving.{MaySave};
ghost use Rattle.mp_recover.specs.declared.refusals.RecoverRefusal.TheVariants.{LogDisk};
ghost use Rattle.mp_recover.specs.Checkpoints.{refused_by_store, LeavesAll, RecoverCause, CheckpointFinds, CheckpointLeft, AreEmpty, CheckpointDone};

use crate::refusals::RecoverRefusal;
use mp_checkpoint::{LogFailed, reset_logs, save_pages};
use mp_files::Disks;
use mp_outside::Disk;
use mp_page::Pages;
use mp_store::{Header, StoreRefusal};
use std::alloc::Global;

/// Saves 4,096 pages in the store of nine disks under a header of the next generation, and then empties the logs: after
/// Ok a crash leaves of each a log without batches. `Store` comes exactly where the store is off its grammar, at its
/// first fault; `StoreDisk` and `LogDisk` only where that disk's count of faults rose; `Memory`, also where the
/// generation isn't the next one; and no other refusal. `Store` and `Memory` come before anything is written. Wherever
/// it stops, a crash leaves what the store showed and the logs as they were, or the new pages under the new header and
/// of each log its batches or none.
pub fn checkpoint<D: Disk>(
    alloc: Global,
    disks: &mut Disks<D>,
    pages: &Pages,
    header: &Header,
) -> Result<(), RecoverRefusal>
    requires logs { length disks.old.logs.items ≡ 8 }
    requires pages { length pages.now.items ≡ 4096 }
    requires header { IsHeader header.now }
    ensures nine { StillNine D.Disk disks.old disks.new }
    ensures finds { AllTell D.Disk disks.old → CheckpointFinds (store_fault (D.seen disks.old.store)) result }
    ensures untouched { IfErr result (LeavesAll D.Disk disks.old disks.new) }
    ensures cause { IfErr result (RecoverCause D.Disk disks.old disks.new) }
    ensures left { AllTell D.Disk disks.old
        → MaySave header.now (page_at pages.now.items) (D.seen disks.old.store)
        → Every D.Disk disks.new (CheckpointLeft D.Disk header.now (page_at pages.now.items) disks.old) }
    ensures done { AllTell D.Disk disks.old
        → MaySave header.now (page_at pages.now.items) (D.seen disks.old.store)
        → OnOk result (Every D.Disk disks.new (CheckpointDone header.now (page_at pages.now.items) (D.seen disks.old.store))) }
    ensures emptied { AllTell D.Disk disks.old → OnOk result (Every D.Disk disks.new AreEmpty) }
{
    match save_pages(alloc, &mut disks.store, pages, header) {
        Ok(()) => (),
        Err(refusal) => return Err(of_store(refusal)),
    }
    match reset_logs(&mut disks.logs) {
        Ok(()) => Ok(()),
        Err(failed) => Err(of_log(failed)),
    }
}

/// A refusal of the store, as one of recovery.
pub(crate) fn of_store(refusal: StoreRefusal) -> RecoverRefusal
    ensures { result ≡ refused_by_store refusal }
{
    match refusal {
        StoreRefusal::NotStore { place } => RecoverRefusal::Store { place },
        StoreRefusal::Disk => RecoverRefusal::StoreDisk,
        StoreRefusal::Memory => RecoverRefusal::Memory,
    }
}

/// The refusal for the disk of a log.
pub(crate) fn of_log(failed: LogFailed) -> RecoverRefusal
    ensures { result ≡ LogDisk failed.primary }
{
    RecoverRefusal::LogDisk {
        primary: failed.primary,
    }
}
