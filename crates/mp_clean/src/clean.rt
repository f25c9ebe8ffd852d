//! The test of all pages.

ghost use Rattle.std.specs.Prelude.{◌≡◌, ℕ, ◌<◌, ◌↔◌, IsTrue};
ghost use Rattle.mp_cells.specs.declared.kinds.Kind.TheVariants.{Meta};
ghost use Rattle.mp_cells.specs.PageMaps.{page_at};
ghost use Rattle.mp_cells.specs.PageView.{IsPage};
ghost use Rattle.mp_cells.specs.Trees.{IsClean};
ghost use Rattle.mp_clean.specs.CleanPages.{is_clean_page};

use crate::fences::is_root;
use crate::kinds::is_clean_page;
use crate::places::height_of;
use crate::reading::page_at;
use mp_page::{Kind, Page, Pages};

/// Whether a store's 4,096 pages are clean at a base LLSN: they are a tree, whose pages but the root have enough rows and
/// children; the bits that are set are those of page 0 and of the tree's pages; all other pages are blank; no row has a
/// writer; and no page's LLSN is above the base. Pages that the list lacks count as blank. It takes no memory.
pub fn is_clean(pages: &Pages, base: u64) -> bool
    ensures { IsTrue result ↔ IsClean base (page_at pages.now.items) }
{
    let meta = page_at(pages, 0);
    match meta.kind() {
        Kind::Meta => is_clean_under(pages, &meta, base),
        _ => false,
    }
}

// The same where page 0 is a meta page.
fn is_clean_under(pages: &Pages, meta: &Page, base: u64) -> bool
    requires meta { meta.now ≡ page_at pages.now.items 0 }
    requires kind { meta.now.kind ≡ Meta }
    ensures { IsTrue result ↔ IsClean base (page_at pages.now.items) }
{
    let height = height_of(pages);
    is_root(pages, height) && are_clean_pages(pages, meta, height, base)
}

// Whether each page is as it should be.
fn are_clean_pages(pages: &Pages, meta: &Page, height: u8, base: u64) -> bool
    requires meta { meta.now ≡ page_at pages.now.items 0 }
    requires kind { meta.now.kind ≡ Meta }
    ensures { IsTrue result ↔ ((n : ℕ) → n < 4096
        → IsPage (page_at pages.now.items n) × IsTrue (is_clean_page base height (page_at pages.now.items) n)) }
{
    for number in 0..4096u16 {
        if !is_clean_page(pages, meta, number, height, base) {
            return false;
        }
    }
    true
}
