//! Recovery of nine disks.

ghost use Rattle.std.specs.Prelude.{◌≡◌, ◌<◌, ◌^◌, ◌-◌, length, map, IfOk, IfErr, OnOk, MatchOption};
ghost use Rattle.mp_files.specs.Nine.{AllTell, Every, StillNine, as_read};
ghost use Rattle.mp_store.specs.HeaderSides.{IsHeader};
ghost use Rattle.mp_recover.specs.Checkpoints.{LeavesAll, RecoverCause};
ghost use Rattle.mp_recover.specs.Finding.{greatest_of, newest_base};
ghost use Rattle.mp_recover.specs.Images.{SoundImage, rows_of_image};
ghost use Rattle.mp_recover.specs.Recovering.{LoadedFits, RecoverFinds, IsRecovered};
ghost use Rattle.mp_recover.specs.SavingLoaded.{next_header, SaveRefuses, LoadedSaved};

use crate::checkpoints::{checkpoint, of_log};
use crate::commits::Ids;
use crate::found::larger;
use crate::loading::{Loaded, load};
use crate::refusals::RecoverRefusal;
use mp_checkpoint::reset_logs;
use mp_files::Disks;
use mp_model::Rows;
use mp_outside::Disk;
use mp_store::Header;
use std::alloc::Global;

/// What a recovery made.
#[derive(Debug, Drop)]
pub struct Recovered {
    /// The new base timestamp: the greatest of a commit that is kept, or the old one where none is.
    pub base: u64,
    /// How many commits are kept: those with a record above the old base LLSN.
    pub kept: u64,
    /// How many rows had a writer that isn't among them.
    pub undone: u64,
    /// The rows, in key order.
    pub rows: Rows,
}

/// Recovers nine disks: the mtrs of the logs above the base LLSN of the store are redone over its pages, by LLSN and among
/// equal ones by primary; each row becomes the newest version whose writer has a commit record among them or that has
/// none; undo pages are freed; the pages whose content is new are saved under a header of the next generation, unless no
/// mtr is above the base; and the logs are emptied last.
///
/// Refusals come in this order, all before anything is written: `Store` for the store's first fault; `Log` for the first
/// fault of the first log that has one; `Gap` or `NotApplicable` for the first record that can't be redone; `Spent` where
/// the header must be flipped and its generation is the last one. `StoreDisk` and `LogDisk` may come instead, only where
/// that disk's count of faults rose, and `Memory`, before anything is written. `docs/crash.md` has what a crash leaves.
pub fn recover<D: Disk>(alloc: Global, disks: &mut Disks<D>) -> Result<Recovered, RecoverRefusal>
    requires eight { length disks.old.logs.items ≡ 8 }
    ensures nine { StillNine D.Disk disks.old disks.new }
    ensures finds { AllTell D.Disk disks.old → RecoverFinds (as_read D.Disk disks.old) result }
    ensures untouched { IfErr result (LeavesAll D.Disk disks.old disks.new) }
    ensures cause { IfErr result (RecoverCause D.Disk disks.old disks.new) }
    // Over sound disks it answers the stored rows with the kept commits folded in, and each image then is clean.
    ensures rows { AllTell D.Disk disks.old → SoundImage (as_read D.Disk disks.old)
        → IfOk result (λ r. r.rows.items ≡ rows_of_image (as_read D.Disk disks.old)) }
    ensures recovered { AllTell D.Disk disks.old → SoundImage (as_read D.Disk disks.old)
        → OnOk result (Every D.Disk disks.new (IsRecovered (as_read D.Disk disks.old))) }
{
    let loaded = match load(alloc, disks) {
        Ok(loaded) => loaded,
        Err(refusal) => return Err(refusal),
    };
    match save(alloc, disks, &loaded) {
        Ok(()) => Ok(answer(loaded)),
        Err(refusal) => Err(refusal),
    }
}

// What was found and made.
fn answer(loaded: Loaded) -> Recovered
    ensures base { result.base ≡ newest_base loaded.header.base loaded.found.ids.items }
    ensures kept { result.kept ≡ length loaded.found.ids.items }
    ensures undone { result.undone ≡ loaded.undone }
    ensures rows { result.rows ≡ loaded.rows }
{
    let base = newest_timestamp(&loaded.found.ids, loaded.header.base);
    let kept = loaded.found.ids.len() as u64;
    let Loaded {
        header: _,
        pages,
        found,
        undone,
        rows,
    } = loaded;
    drop(pages);
    drop(found);
    Recovered {
        base,
        kept,
        undone,
        rows,
    }
}

// Saves what was loaded, where an mtr was above the base, and empties the logs.
fn save<D: Disk>(alloc: Global, disks: &mut Disks<D>, loaded: &Loaded) -> Result<(), RecoverRefusal>
    requires eight { length disks.old.logs.items ≡ 8 }
    requires fits { LoadedFits loaded.now }
    ensures nine { StillNine D.Disk disks.old disks.new }
    ensures refuses { AllTell D.Disk disks.old → SaveRefuses (D.seen disks.old.store) loaded.now result }
    ensures untouched { IfErr result (LeavesAll D.Disk disks.old disks.new) }
    ensures cause { IfErr result (RecoverCause D.Disk disks.old disks.new) }
    ensures saved { AllTell D.Disk disks.old
        → OnOk result (Every D.Disk disks.new (LoadedSaved D.Disk loaded.now disks.old)) }
{
    if loaded.found.llsn == loaded.header.llsn {
        return match reset_logs(&mut disks.logs) {
            Ok(()) => Ok(()),
            Err(failed) => Err(of_log(failed)),
        };
    }
    match header_behind(loaded) {
        Some(header) => checkpoint(alloc, disks, &loaded.pages, &header),
        None => Err(RecoverRefusal::Spent {
            base: loaded.header.generation,
        }),
    }
}

// The header to come; none where the generation is the last one.
fn header_behind(loaded: &Loaded) -> Option<Header>
    requires { LoadedFits loaded.now }
    ensures { MatchOption result (loaded.now.header.generation ≡ 2 ^ 64 - 1)
        (λ header. (header ≡ next_header loaded.now) × IsHeader header) }
{
    if loaded.header.generation == u64::MAX {
        return None;
    }
    Some(next_of(loaded))
}

// The header of the next generation.
fn next_of(loaded: &Loaded) -> Header
    requires { loaded.now.header.generation < 2 ^ 64 - 1 }
    ensures { result ≡ next_header loaded.now }
{
    let base = newest_timestamp(&loaded.found.ids, loaded.header.base);
    Header {
        generation: loaded.header.generation + 1,
        base,
        llsn: loaded.found.llsn,
        version: loaded.found.version,
    }
}

// The newest timestamp among commits, or the old base where there is none.
fn newest_timestamp(ids: &Ids, old: u64) -> u64
    ensures { result ≡ newest_base old ids.now.items }
{
    if ids.len() == 0 {
        return old;
    }
    greatest_timestamp(ids)
}

fn greatest_timestamp(ids: &Ids) -> u64
    ensures { result ≡ greatest_of 0 (map (λ c. c.cts) ids.now.items) }
{
    let commits = ids.as_slice();
    let mut newest = 0;
    for commit in commits {
        newest = larger(newest, commit.cts);
    }
    newest
}
