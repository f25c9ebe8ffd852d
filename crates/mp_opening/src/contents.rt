//! What is read of a store before a run.

ghost use Rattle.std.specs.Prelude.{◌≡◌, length, IsTrue, IfOk, IfErr, OnOk};
ghost use Rattle.mp_outside.specs.Disks.{Only};
ghost use Rattle.mp_files.specs.Nine.{KeptDisk};
ghost use Rattle.mp_store.specs.HeaderSides.{IsHeader};
ghost use Rattle.mp_opening.specs.ReadingContents.{run_refused_by_store, ContentFinds, ContentCause};

use crate::refusals::ClusterRefusal;
use mp_checkpoint::read_pages;
use mp_outside::Disk;
use mp_page::Pages;
use mp_store::{Header, Store, StoreRefusal};
use std::alloc::Global;

/// The header and the pages of a store.
#[derive(Debug, Drop)]
pub(crate) struct StoreContent {
    pub(crate) header: Header,
    pub(crate) pages: Pages,
}

/// Opens the store of a disk and reads its pages. `Store` comes exactly where the file is off its grammar, at its first
/// fault; `StoreDisk` only where the disk's count of faults rose; `Memory`; and no other refusal. The disk is read, and
/// keeps what it holds.
pub(crate) fn read_content<D: Disk>(
    alloc: Global,
    disk: &mut D,
) -> Result<StoreContent, ClusterRefusal>
    ensures kept { KeptDisk D.Disk disk.old disk.new }
    ensures finds { IsTrue (D.tells disk.old) → ContentFinds (D.seen disk.old) result }
    // What is read is what a crash leaves.
    ensures synced { IsTrue (D.tells disk.old) → OnOk result (Only (D.seen disk.new) (D.image disk.new)) }
    ensures header { IfOk result (λ content. IsHeader content.header) }
    ensures count { IfOk result (λ content. length content.pages.items ≡ 4096) }
    ensures cause { IfErr result (ContentCause D.Disk disk.old disk.new) }
{
    let mut store = match Store::open(alloc, disk) {
        Ok(store) => store,
        Err(unopened) => return Err(of_store(unopened.refusal)),
    };
    let header = store.header();
    match read_pages(alloc, &mut store) {
        Ok(pages) => Ok(StoreContent { header, pages }),
        Err(refusal) => Err(of_store(refusal)),
    }
}

// A refusal of the store, as one of a run.
fn of_store(refusal: StoreRefusal) -> ClusterRefusal
    ensures { result ≡ run_refused_by_store refusal }
{
    match refusal {
        StoreRefusal::NotStore { place } => ClusterRefusal::Store { place },
        StoreRefusal::Disk => ClusterRefusal::StoreDisk,
        StoreRefusal::Memory => ClusterRefusal::Memory,
    }
}
