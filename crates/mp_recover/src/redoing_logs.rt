//! Redoing what the logs hold.

ghost use Rattle.std.specs.Prelude.{◌≡◌, [], ◌∷◌, length, IfOk, IfErr, OnOk};
ghost use Rattle.std.specs.List.{AllByRecursion};
ghost use Rattle.mp_cells.specs.Mtrs.{IsMtr};
ghost use Rattle.mp_cells.specs.PageMaps.{page_at};
ghost use Rattle.mp_files.specs.Nine.{as_read, seen_at, EachTells, KeptLogs};
ghost use Rattle.mp_recover.specs.Images.{all_logged};
ghost use Rattle.mp_recover.specs.Merging.{RedoCause};
ghost use Rattle.mp_store.specs.HeaderSides.{IsHeader};
ghost use Rattle.mp_recover.specs.Finding.{greatest_of, llsns_in, versions_in, FoundFits, FoundIn};
ghost use Rattle.mp_recover.specs.Redoing.{mtrs_above, RedoesOne, RedoesAll};

use crate::found::Found;
use crate::merge::{new_fronts, next_front};
use crate::redoing::redo;
use crate::refusals::RecoverRefusal;
use mp_cells::Mtr;
use mp_files::Disks;
use mp_model::Memory;
use mp_outside::Disk;
use mp_page::Pages;
use mp_store::Header;
use std::alloc::Global;

/// Redoes in 4,096 pages the mtrs of eight logs that are above the base LLSN of a header, by LLSN and among equal ones by
/// primary, and answers the commits among them, in that order, with the greatest LLSN and version. `Gap` and
/// `NotApplicable` come exactly for the first record that can't be redone, and those before it stay redone; `Log` only
/// for a log that is off the grammar, at its first fault; `LogDisk` only where that disk's count of faults rose;
/// `Memory`; and no other refusal. The disks are read, and keep what they hold.
pub fn redo_logs<D: Disk>(
    alloc: Global,
    disks: &mut Disks<D>,
    header: &Header,
    pages: &mut Pages,
) -> Result<Found, RecoverRefusal>
    requires logs { length disks.old.logs.items ≡ 8 }
    requires pages { length pages.old.items ≡ 4096 }
    requires header { IsHeader header.now }
    ensures store { disks.new.store ≡ disks.old.store }
    ensures kept { KeptLogs D.Disk disks.old.logs.items disks.new.logs.items }
    ensures count { length pages.new.items ≡ 4096 }
    ensures redone { EachTells D.Disk disks.old.logs.items
        → RedoesAll (seen_at D.Disk disks.old.logs.items) header.now.llsn (all_logged (as_read D.Disk disks.old)) (page_at pages.old.items) (page_at pages.new.items) result }
    ensures found { EachTells D.Disk disks.old.logs.items → IfOk result
        (FoundIn header.now.llsn header.now.version (mtrs_above header.now.llsn (all_logged (as_read D.Disk disks.old)))) }
    ensures mtrs { EachTells D.Disk disks.old.logs.items → OnOk result (AllByRecursion IsMtr (all_logged (as_read D.Disk disks.old))) }
    ensures fits { IfOk result FoundFits }
    ensures cause { IfErr result (RedoCause D.Disk disks.old.logs.items disks.new.logs.items) }
{
    let mut fronts = match new_fronts(alloc) {
        Ok(fronts) => fronts,
        Err(_) => return Err(RecoverRefusal::Memory),
    };
    let mut found = Found::new(alloc, header);
    for _ in 0..u64::MAX {
        match next_front(&mut fronts, disks) {
            Ok(Some(mtr)) => match redo_above(header.llsn, pages, &mut found, &mtr) {
                Ok(()) => (),
                Err(refusal) => return Err(refusal),
            },
            Ok(None) => return Ok(found),
            Err(refusal) => return Err(refusal),
        }
    }
    Err(RecoverRefusal::Memory)
}

// Redoes an mtr that is above a base LLSN, and notes it; leaves any other one out.
fn redo_above(
    base: u64,
    pages: &mut Pages,
    found: &mut Found,
    mtr: &Mtr,
) -> Result<(), RecoverRefusal>
    requires pages { length pages.old.items ≡ 4096 }
    requires mtr { IsMtr mtr.now }
    requires fits { FoundFits found.old }
    ensures count { length pages.new.items ≡ 4096 }
    ensures redone { RedoesOne base mtr.now (page_at pages.old.items) (page_at pages.new.items) found.old.ids.items found.new.ids.items result }
    ensures llsn { OnOk result (found.new.llsn ≡ greatest_of found.old.llsn (llsns_in (mtrs_above base (mtr.now ∷ [])))) }
    ensures version { OnOk result (found.new.version ≡ greatest_of found.old.version (versions_in (mtrs_above base (mtr.now ∷ [])))) }
    ensures fits { OnOk result (FoundFits found.new) }
{
    if mtr.llsn <= base {
        return Ok(());
    }
    match redo(pages, mtr) {
        Ok(()) => (),
        Err(refusal) => return Err(refusal),
    }
    match found.note(mtr) {
        Ok(()) => Ok(()),
        Err(Memory) => Err(RecoverRefusal::Memory),
    }
}
