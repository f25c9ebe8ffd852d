//! Where pages stand in the tree: how high it is, and where a search comes to.

ghost use Rattle.std.specs.Prelude.{◌≡◌, ◌≤◌};
ghost use Rattle.mp_cells.specs.declared.kinds.Kind.TheVariants.{Leaf};
ghost use Rattle.mp_cells.specs.PageMaps.{page_at};
ghost use Rattle.mp_cells.specs.PageView.{is_of};
ghost use Rattle.mp_cells.specs.Trees.{root, leaf_at, height_of};
ghost use Rattle.mp_clean.specs.CleanPages.{is_reached};

use crate::reading::{child_for, page_at};
use mp_page::{Kind, Page, Pages};

/// How many levels of inner pages there are, where the pages are a tree.
pub(crate) fn height_of(pages: &Pages) -> u8
    ensures value { result ≡ height_of (page_at pages.now.items) }
    ensures most { result ≤ 2 }
{
    let root = page_at(pages, 1);
    if is_leaf(&root) {
        return 0;
    }
    let first = page_at(pages, child_for(&root, 0).page);
    if is_leaf(&first) { 1 } else { 2 }
}

/// Whether a page is the root, or a search for its low fence comes to it so many levels below the root.
pub(crate) fn is_reached(pages: &Pages, page: &Page, number: u16, depth: u8) -> bool
    requires { page.now ≡ page_at pages.now.items number }
    ensures { result ≡ is_reached (page_at pages.now.items) depth number }
{
    number == 1 || stop_at(pages, page.low(), depth) == number
}

// The number of the page that a search for a key comes to, so many levels below the root.
fn stop_at(pages: &Pages, key: u64, depth: u8) -> u16
    ensures { result ≡ (leaf_at (page_at pages.now.items) depth key root).page }
{
    let mut number = 1;
    for _level in 0..depth {
        number = child_for(&page_at(pages, number), key).page;
    }
    number
}

fn is_leaf(page: &Page) -> bool
    ensures { result ≡ is_of Leaf page.now }
{
    matches!(page.kind(), Kind::Leaf)
}
