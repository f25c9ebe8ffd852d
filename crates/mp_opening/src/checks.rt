//! Whether a run may begin from what was read.

ghost use Rattle.std.specs.Prelude.{◌≡◌, length};
ghost use Rattle.mp_cells.specs.PageMaps.{page_at};
ghost use Rattle.mp_cells.specs.Trees.{IsClean};
ghost use Rattle.mp_store.specs.HeaderSides.{IsHeader};
ghost use Rattle.mp_opening.specs.Openings.{first_spent};
ghost use Rattle.mp_opening.specs.BeginningChecks.{above_at, LogsMayBegin, PagesMayBegin, NumbersMayBegin, AllMayBegin, IsCleanContent};

use crate::contents::StoreContent;
use crate::refusals::{ClusterRefusal, SpentNumber};
use mp_clean::is_clean;
use mp_log::Log;
use mp_outside::Disk;
use mp_page::Pages;
use mp_store::Header;

/// How many LLSNs a run takes at most: 30,000 mtrs of each of eight primaries.
const RUN_LLSNS: u64 = 240_000;

/// Checks, in this order, that no log holds an mtr above the store's base LLSN, that the pages are a clean tree, and that
/// no number is spent.
pub(crate) fn check_all<D: Disk>(
    content: &StoreContent,
    logs: &Vec<Log<D>>,
    begins: u32,
) -> Result<(), ClusterRefusal>
    requires header { IsHeader content.now.header }
    requires eight { length logs.now.items ≡ 8 }
    ensures { AllMayBegin (above_at content.now.header.llsn logs.now.items) (IsCleanContent content.now)
        (first_spent content.now.header begins) result }
{
    match check_logs(logs, content.header.llsn) {
        Ok(()) => (),
        Err(refusal) => return Err(refusal),
    }
    match check_pages(&content.pages, content.header.llsn) {
        Ok(()) => check_numbers(&content.header, begins),
        Err(refusal) => Err(refusal),
    }
}

// Checks that no log holds an mtr above a base LLSN.
fn check_logs<D: Disk>(logs: &Vec<Log<D>>, base: u64) -> Result<(), ClusterRefusal>
    requires { length logs.now.items ≡ 8 }
    ensures { LogsMayBegin (above_at base logs.now.items) result }
{
    for place in 0..8u8 {
        match logs[place as usize].first_above(base) {
            Some(llsn) => {
                return Err(ClusterRefusal::NeedsRecover {
                    primary: place + 1,
                    llsn,
                });
            }
            None => (),
        }
    }
    Ok(())
}

// Checks that pages are a clean tree.
fn check_pages(pages: &Pages, base: u64) -> Result<(), ClusterRefusal>
    ensures { PagesMayBegin (IsClean base (page_at pages.now.items)) result }
{
    if is_clean(pages, base) {
        return Ok(());
    }
    Err(ClusterRefusal::NotClean)
}

// Checks that no number can go past its format in a run of so many transactions.
fn check_numbers(header: &Header, begins: u32) -> Result<(), ClusterRefusal>
    requires { IsHeader header.now }
    ensures { NumbersMayBegin (first_spent header.now begins) result }
{
    let begins = begins as u64;
    let version = header.version as u64;
    if header.generation == u64::MAX {
        return Err(spent(SpentNumber::Generations, header.generation, 1));
    }
    if 1 << 24 <= version + begins {
        return Err(spent(SpentNumber::Versions, version, begins));
    }
    if 1 << 38 <= header.base + 8 * begins {
        return Err(spent(SpentNumber::Timestamps, header.base, 8 * begins));
    }
    if 1 << 62 <= header.llsn + RUN_LLSNS {
        return Err(spent(SpentNumber::Llsn, header.llsn, RUN_LLSNS));
    }
    Ok(())
}

// The refusal for a number that is spent.
fn spent(what: SpentNumber, base: u64, add: u64) -> ClusterRefusal
    ensures { result ≡ ClusterRefusal.Spent what base add }
{
    ClusterRefusal::Spent { what, base, add }
}
