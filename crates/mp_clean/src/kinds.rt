//! What is tested of one page, by its kind.

ghost use Rattle.std.specs.Prelude.{◌≡◌, ◌-◌, ◌<◌};
ghost use Rattle.mp_cells.specs.declared.kinds.Kind.TheVariants.{Blank, Meta, Leaf, Inner};
ghost use Rattle.mp_cells.specs.PageMaps.{page_at};
ghost use Rattle.mp_cells.specs.PageView.{IsPage, is_of};
ghost use Rattle.mp_clean.specs.CleanPages.{least_rows, least_children, is_clean_leaf, is_clean_inner, is_in_place, has_own_bit, is_clean_page};

use crate::fences::fit_children;
use crate::places::is_reached;
use crate::reading::{are_unwritten, page_at};
use mp_page::{Kind, Page, Pages};

/// Whether one page (below 4,096) is as it should be in a map of this height, page 0 of which is `meta`.
pub(crate) fn is_clean_page(pages: &Pages, meta: &Page, number: u16, height: u8, base: u64) -> bool
    requires meta { meta.now ≡ page_at pages.now.items 0 }
    requires kind { meta.now.kind ≡ Meta }
    requires range { number < 4096 }
    ensures value { result ≡ is_clean_page base height (page_at pages.now.items) number }
    ensures page { IsPage (page_at pages.now.items number) }
{
    let page = page_at(pages, number);
    let in_place = is_in_place(pages, &page, number, height);
    in_place && page.llsn() <= base && has_own_bit(pages, meta, &page, number)
}

// Whether the bit of a page is set exactly where the page isn't blank.
fn has_own_bit(pages: &Pages, meta: &Page, page: &Page, number: u16) -> bool
    requires meta { meta.now ≡ page_at pages.now.items 0 }
    requires kind { meta.now.kind ≡ Meta }
    requires page { page.now ≡ page_at pages.now.items number }
    requires range { number < 4096 }
    ensures { result ≡ has_own_bit (page_at pages.now.items) number }
{
    let taken = meta.taken(number);
    if is_blank(page) { !taken } else { taken }
}

fn is_blank(page: &Page) -> bool
    ensures { result ≡ is_of Blank page.now }
{
    matches!(page.kind(), Kind::Blank)
}

// Whether a page may be where it is, with its cells.
fn is_in_place(pages: &Pages, page: &Page, number: u16, height: u8) -> bool
    requires { page.now ≡ page_at pages.now.items number }
    ensures value { result ≡ is_in_place page.now.kind height (page_at pages.now.items) number }
    ensures page { IsPage page.now }
{
    match page.kind() {
        Kind::Blank => true,
        Kind::Meta => number == 0,
        Kind::Leaf => is_clean_leaf(pages, page, number, height),
        Kind::Inner => is_clean_inner(pages, page, number, height.saturating_sub(1)),
        Kind::Undo => false,
    }
}

fn is_clean_leaf(pages: &Pages, page: &Page, number: u16, height: u8) -> bool
    requires page { IsPage page.now }
    requires kind { page.now.kind ≡ Leaf }
    requires at { page.now ≡ page_at pages.now.items number }
    ensures { result ≡ is_clean_leaf height (page_at pages.now.items) number }
{
    is_reached(pages, page, number, height)
        && least_rows(number) <= page.count()
        && are_unwritten(page)
}

// `under` is how many levels above the leaves the root's children stand, and so how many below the root the inner pages
// besides it.
fn is_clean_inner(pages: &Pages, page: &Page, number: u16, under: u8) -> bool
    requires page { IsPage page.now }
    requires kind { page.now.kind ≡ Inner }
    requires at { page.now ≡ page_at pages.now.items number }
    ensures { result ≡ is_clean_inner under (page_at pages.now.items) number }
{
    let children_above = if number == 1 { under } else { 0 };
    is_reached(pages, page, number, under)
        && least_children(number) <= page.count()
        && fit_children(pages, page, children_above)
}

fn least_rows(number: u16) -> u16
    ensures { result ≡ least_rows number }
{
    if number == 1 { 0 } else { 7 }
}

fn least_children(number: u16) -> u16
    ensures { result ≡ least_children number }
{
    if number == 1 { 2 } else { 62 }
}
