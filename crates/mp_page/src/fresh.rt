//! The pages of a fresh store.

ghost use Rattle.std.specs.Prelude.{◌≡◌, ℕ, ◌<◌, length, IfOk};
ghost use Rattle.mp_cells.specs.PageView.{blank_page};
ghost use Rattle.mp_cells.specs.PageMaps.{page_at};
ghost use Rattle.mp_cells.specs.SmallMaps.{fresh_map};

use crate::body::Body;
use crate::page::Page;
use mp_cells::RowCells;
use mp_model::Memory;
use std::alloc::Global;

/// So many blank pages.
pub(crate) fn blank_pages(alloc: Global, count: usize) -> Result<Vec<Page>, Memory>
    ensures count { IfOk result (λ pages. length pages.items ≡ count) }
    ensures blank { IfOk result (λ pages. (n : ℕ) → page_at pages.items n ≡ blank_page 0) }
{
    let pages = Vec::from_elem(alloc, Page::blank(), count)?;
    Ok(pages)
}

/// The meta page, on which pages 0 and 1 are taken.
pub(crate) fn fresh_meta_page() -> Page
    ensures { result ≡ fresh_map 0 }
{
    let mut bits = [0; 512];
    bits[0] = 3;
    Page::new(0, Body::Meta(bits))
}

/// The empty root.
pub(crate) fn fresh_root_page() -> Page
    ensures { result ≡ fresh_map 1 }
{
    Page::new(
        0,
        Body::Leaf {
            low: 0,
            high: 1 << 32,
            rows: RowCells::new(),
        },
    )
}
