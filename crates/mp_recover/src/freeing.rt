//! Freeing the undo pages.

ghost use Rattle.std.specs.Prelude.{◌≡◌, ℕ, ◌<◌, ◌≤◌, length};
ghost use Rattle.mp_cells.specs.declared.kinds.Kind.TheVariants.{Undo};
ghost use Rattle.mp_cells.specs.PageMaps.{page_at};
ghost use Rattle.mp_cells.specs.PageView.{blank_page, is_of};
ghost use Rattle.mp_recover.specs.Settling.{bit_freed, one_freed, undo_pages_freed};

use mp_page::{Kind, Page, Pages};

/// Makes the undo pages from page 1 on blank, and clears their bits.
pub(crate) fn free_undo_pages(pages: &mut Pages)
    requires pages { length pages.old.items ≡ 4096 }
    ensures count { length pages.new.items ≡ 4096 }
    ensures freed { (n : ℕ) → page_at pages.new.items n ≡ undo_pages_freed 4096 (page_at pages.old.items) n }
{
    for number in 1..4096u16 {
        free_undo(pages, number);
    }
}

// Makes a page blank and clears its bit, where it is an undo page.
fn free_undo(pages: &mut Pages, number: u16)
    requires pages { length pages.old.items ≡ 4096 }
    requires least { 1 ≤ number }
    requires most { number < 4096 }
    ensures count { length pages.new.items ≡ 4096 }
    ensures freed { page_at pages.new.items ≡ one_freed number (page_at pages.old.items) }
{
    if is_undo_page(pages.get(usize::from(number))) {
        blank_out(pages.page_mut(usize::from(number)));
        clear_bit(pages.page_mut(0), number);
    }
}

// Whether a page is an undo page.
fn is_undo_page(page: &Page) -> bool
    ensures { result ≡ is_of Undo page.now }
{
    matches!(page.kind(), Kind::Undo)
}

// Makes a page blank.
fn blank_out(page: &mut Page)
    ensures { page.new ≡ blank_page page.old.llsn }
{
    let mut blank = Page::blank();
    blank.set_llsn(page.llsn());
    *page = blank;
}

// Clears the bit of a page, where this is a meta page.
fn clear_bit(page: &mut Page, number: u16)
    requires { number < 4096 }
    ensures { page.new ≡ bit_freed number page.old }
{
    match page.kind() {
        Kind::Meta => page.free(number),
        Kind::Blank | Kind::Leaf | Kind::Inner | Kind::Undo => (),
    }
}
