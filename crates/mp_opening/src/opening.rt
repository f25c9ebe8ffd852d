//! Opening nine disks for a run.

ghost use Rattle.std.specs.Prelude.{◌≡◌, ℕ, ◌≤◌, [], length, map, vec_capacity, IfOk, IfErr};
ghost use Rattle.mp_core.specs.Invariant.{NumbersFit};
ghost use Rattle.mp_files.specs.Nine.{AllTell, KeptNine, as_read};
ghost use Rattle.mp_opening.specs.Openings.{base_of, OpensAs, HandsOut, RunCause};

use crate::checks::check_all;
use crate::contents::{StoreContent, read_content};
use crate::logs::{open_logs, put_before};
use crate::refusals::ClusterRefusal;
use mp_core_trx::Base;
use mp_files::Disks;
use mp_log::Log;
use mp_outside::Disk;
use mp_page::Pages;
use std::alloc::Global;

/// Nine disks opened for a run: what the store had reached, its 4,096 pages, and the logs, that of primary n at place
/// n - 1.
#[derive(Drop)]
pub struct Opened<D: Disk> {
    pub base: Base,
    pub pages: Pages,
    pub logs: Vec<Log<D>>,
}

/// Opens nine disks for a run of so many transactions (at most 10,000) of up to eight primaries. The store is opened and
/// read, then the logs from 1 to 8, which are handed out; their list is left empty, with room for all of them.
///
/// Refusals come in this order, and leave all nine as they were: `Store` for the store's first fault; `Log` for the first
/// fault of the first log that has one; `NeedsRecover` for the first log with an mtr above the base LLSN; `NotClean`
/// exactly where the stored pages aren't a clean tree; `Spent` for the first number that the run could bring past its
/// format. `StoreDisk` and `LogDisk` may come instead, only where that disk's count of faults rose, and `Memory`.
pub fn open_nine<D: Disk>(
    alloc: Global,
    disks: &mut Disks<D>,
    begins: u32,
) -> Result<Opened<D>, ClusterRefusal>
    requires eight { length disks.old.logs.items ≡ 8 }
    ensures finds { AllTell D.Disk disks.old → OpensAs (as_read D.Disk disks.old) begins result }
    ensures opened { IfOk result (HandsOut D.Disk disks.old disks.new) }
    // The numbers of a run of so many transactions fit, whatever its count of primaries.
    ensures fit { IfOk result (λ opened. (primaries : ℕ) → 1 ≤ primaries → primaries ≤ 8
        → NumbersFit (record {
          trx = record { base = opened.base; primaries = primaries; begins = begins };
          pages = opened.pages.items;
        })) }
    ensures untouched { IfErr result (λ refusal. KeptNine D.Disk disks.old disks.new) }
    ensures cause { IfErr result (RunCause D.Disk disks.old disks.new) }
{
    let content = match read_content(alloc, &mut disks.store) {
        Ok(content) => content,
        Err(refusal) => return Err(refusal),
    };
    let logs = match open_logs(alloc, &mut disks.logs) {
        Ok(logs) => logs,
        Err(refusal) => return Err(refusal),
    };
    match check_all(&content, &logs, begins) {
        Ok(()) => Ok(hand_out(content, logs)),
        Err(refusal) => {
            put_back(logs, &mut disks.logs);
            Err(refusal)
        }
    }
}

// What is handed out: what the store had reached, its pages, and the logs.
fn hand_out<D: Disk>(content: StoreContent, logs: Vec<Log<D>>) -> Opened<D>
    ensures base { result.base ≡ base_of content.header }
    ensures pages { result.pages ≡ content.pages }
    ensures logs { result.logs ≡ logs }
{
    let StoreContent { header, pages } = content;
    let base = Base {
        ts: header.base,
        llsn: header.llsn,
        version: header.version,
    };
    Opened { base, pages, logs }
}

/// Puts the disks of eight logs back into their list, in their order. It takes no memory; what was appended and not forced
/// is given up.
pub fn put_back<D: Disk>(logs: Vec<Log<D>>, disks: &mut Vec<D>)
    requires none { disks.old.items ≡ [] }
    requires room { length logs.items ≤ vec_capacity disks.old }
    ensures { disks.new.items ≡ map (λ log. log.disk) logs.items }
{
    put_before(logs, disks);
}
