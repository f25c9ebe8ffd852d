//! What a page holds besides its LLSN.

use mp_cells::{ChildCells, RowCells};

/// The fences and cells of a page, or its bits, by its kind.
#[derive(Clone, Copy, Debug)]
pub(crate) enum Body {
    Blank,
    Meta([u8; 512]),
    Leaf {
        low: u64,
        high: u64,
        rows: RowCells,
    },
    Inner {
        low: u64,
        high: u64,
        children: ChildCells,
    },
    Undo(RowCells),
}
