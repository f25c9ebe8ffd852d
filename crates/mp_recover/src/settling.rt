//! Rolling back: each row becomes the newest version in its chain that counts, and the undo pages are freed.

ghost use Rattle.std.specs.Prelude.{◌≡◌, ℕ, ◌<◌, ◌≤◌, List, length};
ghost use Rattle.mp_cells.specs.PageMaps.{page_at};
ghost use Rattle.mp_cells.specs.Plans.{with_page};
ghost use Rattle.mp_cells.specs.declared.rows.Row.{Row};
ghost use Rattle.mp_cells.specs.Trees.{IsTree, height_of};
ghost use Rattle.mp_cells.specs.Writes.{undo_at};
ghost use Rattle.mp_recover.specs.KeptCommits.{KeptCommit};
ghost use Rattle.mp_recover.specs.Settled.{IsSettled};
ghost use Rattle.mp_recover.specs.Standing.{ChainsStand};
ghost use Rattle.mp_recover.specs.Settling.{trx_ids, leaf_settled, leaves_settled, pages_settled, undone_in, undone_below};

use crate::commits::Ids;
use crate::freeing::free_undo_pages;
use crate::versions::{count_undone, is_leaf_page, leaf_with, settled_cells};
use mp_page::Pages;

/// Rolls back, in 4,096 pages, the transactions that aren't among the ids: each row of a leaf becomes the newest version
/// of its chain whose writer is among them or that has none, without writer and link; undo pages become blank and their
/// bits are cleared; all else stays. It answers how many rows had a writer that isn't among them. A chain that isn't
/// whole ends where no version of the same key is found below, and a chain in a circle after 65,537 steps: the row then
/// becomes the last version reached. It takes no memory, and is never refused.
pub fn roll_back_losers(pages: &mut Pages, ids: &Ids) -> u64
    requires pages { length pages.old.items ≡ 4096 }
    ensures count { length pages.new.items ≡ 4096 }
    ensures settled { page_at pages.new.items ≡ pages_settled (trx_ids ids.now.items) (page_at pages.old.items) }
    // So a tree whose chains are whole is settled.
    ensures settles { (commits : List KeptCommit) (last : ℕ → Row)
        → IsTree (page_at pages.old.items) (height_of (page_at pages.old.items)) → ((key : ℕ) → (last key).key ≡ key)
        → ChainsStand commits (page_at pages.old.items) last
        → IsSettled (trx_ids ids.now.items) (page_at pages.old.items) (page_at pages.new.items) }
    ensures undone { result ≡ undone_below 4096 (trx_ids ids.now.items) (page_at pages.old.items) }
{
    let undone = settle_leaves(pages, ids);
    free_undo_pages(pages);
    undone
}

// Settles the rows of all leaves, and answers how many had a writer that isn't among the ids.
fn settle_leaves(pages: &mut Pages, ids: &Ids) -> u64
    requires pages { length pages.old.items ≡ 4096 }
    ensures count { length pages.new.items ≡ 4096 }
    ensures settled { (n : ℕ) → page_at pages.new.items n ≡ leaves_settled (trx_ids ids.now.items) (page_at pages.old.items) n }
    ensures undone { result ≡ undone_below 4096 (trx_ids ids.now.items) (page_at pages.old.items) }
{
    let mut undone = 0;
    for number in 0..4096u16 {
        undone += settle_page(pages, number, ids);
    }
    undone
}

// Settles the rows of a page, where it is a leaf.
fn settle_page(pages: &mut Pages, number: u16, ids: &Ids) -> u64
    requires pages { length pages.old.items ≡ 4096 }
    requires number { number < 4096 }
    ensures count { length pages.new.items ≡ 4096 }
    ensures settled { page_at pages.new.items ≡ with_page (page_at pages.old.items) number
        (leaf_settled (trx_ids ids.now.items) (undo_at (page_at pages.old.items)) (page_at pages.old.items number)) }
    ensures undone { result ≡ undone_in (trx_ids ids.now.items) (page_at pages.old.items number) }
    ensures most { result ≤ 15 }
{
    let page = *pages.get(usize::from(number));
    if !is_leaf_page(&page) {
        return 0;
    }
    let cells = settled_cells(pages, &page, ids);
    *pages.page_mut(usize::from(number)) = leaf_with(&page, cells);
    count_undone(&page, ids)
}
