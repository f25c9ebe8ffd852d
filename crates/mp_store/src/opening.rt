//! The checks that open a store.

ghost use Rattle.std.specs.Prelude.{◌≡◌, ℕ, ◌≤◌, IsTrue, IfOk, OnOk, length};
ghost use Rattle.mp_outside.specs.Disks.{Quiet, Only};
ghost use Rattle.mp_store.specs.Layout.{store_length};
ghost use Rattle.mp_store.specs.HeaderSides.{IsHeader};
ghost use Rattle.mp_store.specs.StoreFiles.{header_in_force, store_fault};
ghost use Rattle.mp_store.specs.Answers.{StoreFinds, StoreCause, NeedsNoMemory};

use crate::checking::{check_headers, check_homes, check_length, check_roots};
use crate::headers::Header;
use crate::refusals::StoreRefusal;
use mp_outside::Disk;

/// The header in force of a disk that holds a store. It syncs the disk first, so that what it reads is what a crash
/// leaves, and makes all checks in their order.
pub(crate) fn check_all<D: Disk>(disk: &mut D) -> Result<Header, StoreRefusal>
    ensures tells { D.tells disk.new ≡ D.tells disk.old }
    ensures quiet { Quiet (D.seen disk.old) (D.image disk.old) (D.seen disk.new) (D.image disk.new) }
    ensures is { IfOk result (λ header. IsHeader header) }
    ensures header { IsTrue (D.tells disk.old) → IfOk result (λ header. header ≡ header_in_force (D.seen disk.old)) }
    ensures finds { IsTrue (D.tells disk.old) → StoreFinds (store_fault (D.seen disk.old)) result }
    ensures safe { IsTrue (D.tells disk.old) → OnOk result (Only (D.seen disk.old) (D.image disk.new)) }
    ensures long { IsTrue (D.tells disk.old) → OnOk result (store_length ≤ length (D.seen disk.old)) }
    ensures known { OnOk result (store_length ≤ D.known disk.new) }
    ensures count { D.faults disk.old ≤ D.faults disk.new }
    ensures cause { StoreCause (D.faults disk.old) (D.faults disk.new) result }
    ensures memory { NeedsNoMemory result }
{
    disk.sync()?;
    check_length(disk)?;
    let header = check_headers(disk)?;
    check_homes(disk, header.generation)?;
    check_roots(disk, header.generation)?;
    Ok(header)
}
