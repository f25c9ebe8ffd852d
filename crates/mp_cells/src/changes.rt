//! The changes of a page.

use crate::child_cells::ChildCells;
use crate::children::Child;
use crate::row_cells::RowCells;
use crate::rows::Row;

/// A change can't be applied: its condition on the page fails.
#[derive(Clone, Copy, Debug, PartialEq, Eq)]
pub struct NotApplicable;

/// One change of one page. Each has a condition on the page; none changes the page's LLSN.
#[derive(Clone, Copy, Debug)]
pub enum Change {
    /// A blank page becomes a leaf with these fences and rows.
    MakeLeaf {
        low: u64,
        high: u64,
        rows: RowCells,
    },
    /// A blank page, or a page of the tree with these fences, becomes an inner page with these children.
    MakeInner {
        low: u64,
        high: u64,
        children: ChildCells,
    },
    /// A blank page becomes an undo page without records.
    MakeUndo,
    /// The row of its key on a leaf is this one, which has a writer.
    PutRow {
        row: Row,
    },
    /// The row of its key on a leaf, which holds the key, is this one.
    RestoreRow {
        row: Row,
    },
    /// The cells at or above `from` are gone from a page of the tree, and `from` is its high fence.
    Cut {
        from: u32,
    },
    /// A child is added to an inner page, in order.
    PutChild {
        child: Child,
    },
    /// A row is added at the end of an undo page.
    PutUndo {
        row: Row,
    },
    /// The bit of a page is set on the meta page.
    TakePage {
        page: u16,
    },
}
