//! Fences: whether the pages under one page, and the root, begin and end where they should.

ghost use Rattle.std.specs.Prelude.{◌≡◌, ◌+◌, ◌<◌, length, drop};
ghost use Rattle.mp_cells.specs.declared.kinds.Kind.TheVariants.{Inner};
ghost use Rattle.mp_cells.specs.PageMaps.{page_at};
ghost use Rattle.mp_cells.specs.PageView.{IsPage, is_of};
ghost use Rattle.mp_cells.specs.Trees.{top, root, low_of};
ghost use Rattle.mp_clean.specs.CleanPages.{kind_above, fits_child, fit_children};

use crate::reading::page_at;
use mp_page::{Child, Kind, Page, Pages};

/// Whether page 1 is of the kind that stands so high, and holds all keys.
pub(crate) fn is_root(pages: &Pages, height: u8) -> bool
    ensures { result ≡ fits_child (page_at pages.now.items) (kind_above height) top root }
{
    fits_child(pages, Child { low: 0, page: 1 }, 1 << 32, height)
}

/// Whether the pages of the children of an inner page are of the kind that stands so high, and each ends where the next
/// begins.
pub(crate) fn fit_children(pages: &Pages, page: &Page, height: u8) -> bool
    requires page { IsPage page.now }
    requires kind { page.now.kind ≡ Inner }
    ensures { result ≡ fit_children (page_at pages.now.items) (kind_above height) page.now.high page.now.children }
{
    for i in 0..page.count() {
        let high = end_of(page, i);
        if !fits_child(pages, page.child(i), high, height) {
            return false;
        }
    }
    true
}

// Where the i-th child of an inner page ends: at the next one's low key, or at the page's high fence.
fn end_of(page: &Page, i: u16) -> u64
    requires page { IsPage page.now }
    requires kind { page.now.kind ≡ Inner }
    requires within { i < length page.now.children }
    ensures { result ≡ low_of (drop (i + 1) page.now.children) page.now.high }
{
    if i + 1 < page.count() {
        u64::from(page.child(i + 1).low)
    } else {
        page.high()
    }
}

// Whether a child's page is of the kind that stands so high, and has these fences.
fn fits_child(pages: &Pages, child: Child, high: u64, height: u8) -> bool
    ensures { result ≡ fits_child (page_at pages.now.items) (kind_above height) high child }
{
    let page = page_at(pages, child.page);
    is_above(&page, height) && page.low() == u64::from(child.low) && page.high() == high
}

// Whether a page is of the kind that stands so many levels above the leaves.
fn is_above(page: &Page, height: u8) -> bool
    ensures { result ≡ is_of (kind_above height) page.now }
{
    match page.kind() {
        Kind::Leaf => height == 0,
        Kind::Inner => 0 < height,
        _ => false,
    }
}
