//! The versions of a row, from the newest one down its links.

ghost use Rattle.std.specs.Prelude.{◌≡◌, ◌≤◌, length, IsTrue, IfSome, if◌then◌else◌};
ghost use Rattle.std.specs.List.{AllByRecursion, list_any};
ghost use Rattle.mp_cells.specs.declared.kinds.Kind.TheVariants.{Leaf};
ghost use Rattle.mp_cells.specs.Rows.{IsRow};
ghost use Rattle.mp_cells.specs.PageMaps.{page_at};
ghost use Rattle.mp_cells.specs.PageView.{IsPage, leaf_page, is_leaf, is_of};
ghost use Rattle.mp_cells.specs.Writes.{record_in, undo_at};
ghost use Rattle.mp_recover.specs.Settled.{is_counted};
ghost use Rattle.mp_recover.specs.Settling.{trx_ids, of_same_key, version_below, steps_down, most_steps, row_settled, rows_settled, undone_in};

use crate::commits::Ids;
use mp_cells::{Change, Row, RowCells};
use mp_model::TrxId;
use mp_page::{Kind, Page, Pages, apply};

/// More steps than there are undo records in 4,096 pages.
const MOST_STEPS: u32 = 65_537;

/// Whether a page is a leaf.
pub(crate) fn is_leaf_page(page: &Page) -> bool
    ensures is { result ≡ is_of Leaf page.now }
    ensures page { IsPage page.now }
{
    matches!(page.kind(), Kind::Leaf)
}

/// A leaf with other rows, of the same keys.
pub(crate) fn leaf_with(page: &Page, rows: RowCells) -> Page
    requires fit { IsTrue (is_leaf page.now.low page.now.high rows) }
    requires rows { AllByRecursion IsRow rows }
    ensures { result ≡ leaf_page page.now.llsn page.now.low page.now.high rows }
{
    let mut leaf = Page::blank();
    leaf.set_llsn(page.llsn());
    let change = Change::MakeLeaf {
        low: page.low(),
        high: page.high(),
        rows,
    };
    match apply(&mut leaf, &change) {
        Ok(()) => leaf,
        Err(_) => unreachable!(),
    }
}

/// How many rows of a leaf have a writer that isn't among the ids.
pub(crate) fn count_undone(page: &Page, ids: &Ids) -> u64
    requires page { IsPage page.now }
    requires leaf { IsTrue (is_of Leaf page.now) }
    ensures undone { result ≡ undone_in (trx_ids ids.now.items) page.now }
    ensures most { result ≤ 15 }
{
    let mut undone = 0;
    for i in 0..page.count() {
        undone += undone_one(ids, page.row(i).writer);
    }
    undone
}

// 1 for a writer that isn't among the ids.
fn undone_one(ids: &Ids, writer: Option<TrxId>) -> u64
    ensures one { result ≡ (if is_counted (trx_ids ids.now.items) writer then 0 else 1) }
    ensures most { result ≤ 1 }
{
    if is_counted(ids, writer) { 0 } else { 1 }
}

/// The rows of a leaf, settled.
pub(crate) fn settled_cells(pages: &Pages, page: &Page, ids: &Ids) -> RowCells
    requires pages { length pages.now.items ≡ 4096 }
    requires page { IsPage page.now }
    requires leaf { IsTrue (is_of Leaf page.now) }
    ensures settled { result ≡ rows_settled (trx_ids ids.now.items) (undo_at (page_at pages.now.items)) page.now.rows }
    ensures rows { AllByRecursion IsRow result }
{
    let mut cells = RowCells::new();
    for i in 0..page.count() {
        cells.put(settled_row(pages, page.row(i), ids));
    }
    cells
}

// What a row becomes.
fn settled_row(pages: &Pages, row: Row, ids: &Ids) -> Row
    requires pages { length pages.now.items ≡ 4096 }
    requires row { IsRow row }
    ensures settled { result ≡ row_settled (trx_ids ids.now.items) (undo_at (page_at pages.now.items)) row }
    ensures kept { IsRow result }
{
    let version = counted_version(pages, row, ids);
    Row {
        key: version.key,
        value: version.value,
        writer: None,
        link: None,
    }
}

// The first version from a row down that counts, or the last one that is reached.
fn counted_version(pages: &Pages, row: Row, ids: &Ids) -> Row
    requires pages { length pages.now.items ≡ 4096 }
    requires row { IsRow row }
    ensures version { result ≡ steps_down most_steps (trx_ids ids.now.items) (undo_at (page_at pages.now.items)) row }
    ensures kept { IsRow result }
{
    let mut version = row;
    for _step in 0..MOST_STEPS {
        if is_counted(ids, version.writer) {
            return version;
        }
        match version_below(pages, &version) {
            Some(below) => version = below,
            None => return version,
        }
    }
    version
}

// The version below another one, of the same key.
fn version_below(pages: &Pages, row: &Row) -> Option<Row>
    requires pages { length pages.now.items ≡ 4096 }
    requires row { IsRow row.now }
    ensures below { result ≡ version_below (undo_at (page_at pages.now.items)) row.now }
    ensures kept { IfSome result IsRow }
{
    match row.link {
        None => None,
        Some(link) => same_key(
            row.key,
            record_at(pages.get(usize::from(link.page)), u16::from(link.index)),
        ),
    }
}

// A record, where it is of this key.
fn same_key(key: u32, found: Option<Row>) -> Option<Row>
    requires { IfSome found IsRow }
    ensures same { result ≡ of_same_key key found }
    ensures kept { IfSome result IsRow }
{
    match found {
        Some(row) if row.key == key => Some(row),
        _ => None,
    }
}

// The record of an undo page at a place.
fn record_at(page: &Page, index: u16) -> Option<Row>
    ensures there { result ≡ record_in page.now index }
    ensures kept { IfSome result IsRow }
{
    match page.kind() {
        Kind::Undo if index < page.count() => Some(page.row(index)),
        _ => None,
    }
}

// Whether a version counts: it has no writer, or one among the ids.
fn is_counted(ids: &Ids, writer: Option<TrxId>) -> bool
    ensures { result ≡ is_counted (trx_ids ids.now.items) writer }
{
    match writer {
        None => true,
        Some(id) => has_id(ids, &id),
    }
}

// Whether a transaction is among the ids.
fn has_id(ids: &Ids, id: &TrxId) -> bool
    ensures { result ≡ is_counted (trx_ids ids.now.items) (Some id.now) }
{
    let commits = ids.as_slice();
    for commit in commits {
        if commit.id.node == id.node
            && commit.id.slot == id.slot
            && commit.id.version == id.version
        {
            return true;
        }
    }
    false
}
