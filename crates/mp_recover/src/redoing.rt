//! Redoing mtrs over pages.

ghost use Rattle.std.specs.Prelude.{◌≡◌, ◌<◌, ◌^◌, length};
ghost use Rattle.std.specs.List.{AllByRecursion};
ghost use Rattle.mp_cells.specs.Mtrs.{IsMtr};
ghost use Rattle.mp_cells.specs.Changes.{HasCells};
ghost use Rattle.mp_cells.specs.PageMaps.{page_at};
ghost use Rattle.mp_recover.specs.Redoing.{refusal_of, OnlyRedo, page_redone, record_redone, records_redone, RecordFits};

use crate::refusals::RecoverRefusal;
use mp_cells::{Change, Mtr, Record};
use mp_page::{Page, Pages, apply};

/// Redoes the records of an mtr in 4,096 pages, in their order: each change is made, and its page gets the mtr's LLSN.
/// `Gap` comes exactly where the next record's `prev` isn't its page's LLSN, and `NotApplicable` exactly where its
/// change can't be applied to the page; the records before the refused one stay redone, and nothing else has changed.
pub fn redo(pages: &mut Pages, mtr: &Mtr) -> Result<(), RecoverRefusal>
    requires pages { length pages.old.items ≡ 4096 }
    requires mtr { IsMtr mtr.now }
    ensures count { length pages.new.items ≡ 4096 }
    ensures redone { (page_at pages.new.items, refusal_of result)
        ≡ records_redone mtr.now.llsn mtr.now.records (page_at pages.old.items) }
    ensures only { OnlyRedo (refusal_of result) }
{
    redo_items(pages, mtr.llsn, mtr.records.as_slice())
}

// Redoes records of an mtr with this LLSN.
fn redo_items(pages: &mut Pages, llsn: u64, items: &[Record]) -> Result<(), RecoverRefusal>
    requires pages { length pages.old.items ≡ 4096 }
    requires llsn { llsn < 2 ^ 62 }
    requires fit { AllByRecursion RecordFits items.now }
    ensures count { length pages.new.items ≡ 4096 }
    ensures redone { (page_at pages.new.items, refusal_of result)
        ≡ records_redone llsn items.now (page_at pages.old.items) }
{
    for item in items {
        redo_record(pages, llsn, item)?;
    }
    Ok(())
}

// Redoes one record of an mtr with this LLSN.
fn redo_record(pages: &mut Pages, llsn: u64, item: &Record) -> Result<(), RecoverRefusal>
    requires pages { length pages.old.items ≡ 4096 }
    requires llsn { llsn < 2 ^ 62 }
    requires fits { RecordFits item.now }
    ensures count { length pages.new.items ≡ 4096 }
    ensures redone { (page_at pages.new.items, refusal_of result)
        ≡ record_redone llsn item.now (page_at pages.old.items) }
{
    match item {
        Record::Page { page, prev, change } => redo_page(
            pages.page_mut(usize::from(*page)),
            *page,
            llsn,
            *prev,
            change,
        ),
        Record::Commit { .. } => Ok(()),
    }
}

// Redoes a change of the page of this number, by an mtr with this LLSN, on the page with the LLSN `prev`.
fn redo_page(
    page: &mut Page,
    number: u16,
    llsn: u64,
    prev: u64,
    change: &Change,
) -> Result<(), RecoverRefusal>
    requires llsn { llsn < 2 ^ 62 }
    requires cells { HasCells change.now }
    ensures { (page.new, refusal_of result) ≡ page_redone number llsn prev change.now page.old }
{
    if page.llsn() != prev {
        return Err(RecoverRefusal::Gap {
            page: number,
            wanted: prev,
            found: page.llsn(),
        });
    }
    match apply(page, change) {
        Ok(()) => {
            page.set_llsn(llsn);
            Ok(())
        }
        Err(_) => Err(RecoverRefusal::NotApplicable { page: number, llsn }),
    }
}
