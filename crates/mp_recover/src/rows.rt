//! The rows of pages in memory.

ghost use Rattle.std.specs.Prelude.{◌≡◌, ℕ, ◌++◌, ◌≤◌, ◌<◌, ◌^◌, length, IfOk, OnOk};
ghost use Rattle.mp_cells.specs.PageMaps.{page_at};
ghost use Rattle.mp_cells.specs.Trees.{IsTree, tree_rows};
ghost use Rattle.mp_model.specs.Folded.{row_of};
ghost use Rattle.mp_recover.specs.KeptCommits.{write_of, present};
ghost use Rattle.mp_recover.specs.PresentRows.{PushesLeaf};

use mp_model::{KeyValue, Memory, NotYet, Rows};
use mp_page::{Page, Pager, Pages, Row};
use mp_tree::rows_from;
use std::alloc::Global;

/// All pages, at hand.
#[derive(Debug, Drop)]
pub(crate) struct AllPages {
    pub(crate) pages: Pages,
    ghost all: { length pages.items ≡ 4096 },
}

impl Pager for AllPages {
    ghost use Rattle.std.specs.Prelude.{◌≡◌, ℕ, Some, refl, slice_get};
    ghost use Rattle.std.proofs.Common.{◌∙◌};
    ghost use Rattle.mp_model.specs.declared.waiting.WordKind.TheVariants.{Lock};

    ghost handed = { λ p n. slice_get p.pages.items n };

    ghost waits = { λ p. 0 };

    ghost last = { λ p. record { of = Lock; at = 0; seen = 0 } };

    ghost follows = { λ p q. p ≡ q };

    ghost withholds = { λ p n. ⊥ };

    ghost follows_self = { λ p. refl };

    ghost follows_on = { λ p q r h k. h ∙ k };

    fn page(&mut self, number: u16) -> Result<&Page, NotYet> {
        Ok(self.pages.get(usize::from(number)))
    }
}

/// The rows with values of all leaves, in key order. Over pages that are no tree they mean nothing.
pub(crate) fn present_rows(alloc: Global, all: &mut AllPages) -> Result<Rows, Memory>
    ensures same { all.new ≡ all.old }
    ensures rows { IfOk result (λ rows. (height : ℕ) → IsTree (page_at all.old.pages.items) height
        → rows.items ≡ present (tree_rows (page_at all.old.pages.items) height)) }
{
    let mut rows = Rows::new(alloc);
    let mut low: u64 = 0;
    for _leaf in 0..u64::MAX {
        if low >= 1 << 32 {
            return Ok(rows);
        }
        let next = push_leaf(&mut rows, all, low as u32)?;
        if next <= low {
            return Ok(rows);
        }
        low = next;
    }
    Err(Memory)
}

// Adds the rows with values of the leaf that may hold a key, from that key on, and answers the leaf's high fence.
fn push_leaf(rows: &mut Rows, all: &mut AllPages, low: u32) -> Result<u64, Memory>
    ensures same { all.new ≡ all.old }
    ensures pushed { IfOk result (λ next. (height : ℕ) → IsTree (page_at all.old.pages.items) height
        → PushesLeaf (tree_rows (page_at all.old.pages.items) height) low next rows.old.items rows.new.items) }
{
    let found = match rows_from(all, low) {
        Ok(found) => found,
        Err(_) => return Err(Memory),
    };
    push_present(rows, found.rows.as_slice())?;
    Ok(found.next)
}

// Adds the rows with values among some.
fn push_present(rows: &mut Rows, leaf: &[Row]) -> Result<(), Memory>
    ensures { OnOk result (rows.new.items ≡ rows.old.items ++ present leaf.now) }
{
    for row in leaf {
        push_row(rows, row)?;
    }
    Ok(())
}

// Adds a row, where it has a value.
fn push_row(rows: &mut Rows, row: &Row) -> Result<(), Memory>
    ensures { OnOk result (rows.new.items ≡ rows.old.items ++ row_of (write_of row.now)) }
{
    match row.value {
        None => Ok(()),
        Some(value) => rows.push(KeyValue {
            key: row.key,
            value,
        }),
    }
}
