//! Pages, rows and children as the tests read them.

ghost use Rattle.std.specs.Prelude.{◌≡◌, ◌<◌, length};
ghost use Rattle.std.specs.List.{list_all};
ghost use Rattle.mp_cells.specs.declared.kinds.Kind.TheVariants.{Leaf, Inner};
ghost use Rattle.mp_cells.specs.PageMaps.{page_at};
ghost use Rattle.mp_cells.specs.PageView.{IsPage};
ghost use Rattle.mp_cells.specs.Trees.{child_at};
ghost use Rattle.mp_clean.specs.CleanPages.{is_unwritten};

use mp_page::{Child, Kind, Page, Pages};

/// The page with a number; a blank page behind the last.
pub(crate) fn page_at(pages: &Pages, number: u16) -> Page
    ensures { result ≡ page_at pages.now.items number }
{
    let i = usize::from(number);
    if i < pages.len() {
        *pages.get(i)
    } else {
        Page::blank()
    }
}

/// Whether no row of a leaf has a writer.
pub(crate) fn are_unwritten(page: &Page) -> bool
    requires page { IsPage page.now }
    requires kind { page.now.kind ≡ Leaf }
    ensures { result ≡ list_all is_unwritten page.now.rows }
{
    for i in 0..page.count() {
        if page.row(i).writer.is_some() {
            return false;
        }
    }
    true
}

/// The child of a page that may hold a key; the root where the page has no children.
pub(crate) fn child_for(page: &Page, key: u64) -> Child
    ensures { result ≡ child_at key page.now.children }
{
    match page.kind() {
        Kind::Inner => child_among(page, key),
        _ => Child { low: 0, page: 1 },
    }
}

// The child of an inner page that may hold a key.
fn child_among(page: &Page, key: u64) -> Child
    requires page { IsPage page.now }
    requires kind { page.now.kind ≡ Inner }
    ensures { result ≡ child_at key page.now.children }
{
    let mut child = page.child(0);
    for i in 1..page.count() {
        let next = page.child(i);
        if key < u64::from(next.low) {
            return child;
        }
        child = next;
    }
    child
}
