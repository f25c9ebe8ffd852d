//! A store in memory, for tests: plans are applied to its pages.

ghost use Rattle.std.specs.Prelude.{◌<◌, ◌≤◌, length, IfSome};
ghost use Rattle.std.specs.List.{AllByRecursion};
ghost use Rattle.mp_cells.specs.Rows.{IsRow};
ghost use Rattle.mp_cells.specs.Children.{IsChild};
ghost use Rattle.mp_cells.specs.Changes.{HasCells};

use mp_cells::{read_row, write_row};
use mp_model::NotYet;
use mp_page::{Change, Child, ChildCells, Page, Pager, Pages, Row, RowCells, apply};
use mp_tree::Plan;

/// Pages in a list; those behind it are blank.
#[derive(Debug, Drop)]
pub(crate) struct Store {
    pub(crate) pages: Pages,
    pub(crate) blank: Page,
}

impl Pager for Store {
    ghost use Rattle.std.specs.Prelude.{◌≡◌, ℕ, Some, refl, slice_get, length, nat_lt, if◌then◌else◌};
    ghost use Rattle.std.proofs.Common.{◌∙◌};
    ghost use Rattle.mp_model.specs.declared.waiting.WordKind.TheVariants.{Lock};

    ghost handed = { λ p n. if nat_lt n (length p.pages.items) then slice_get p.pages.items n else Some p.blank };

    ghost waits = { λ p. 0 };

    ghost last = { λ p. record { of = Lock; at = 0; seen = 0 } };

    ghost follows = { λ p q. p ≡ q };

    ghost withholds = { λ p n. ⊥ };

    ghost follows_self = { λ p. refl };

    ghost follows_on = { λ p q r h k. h ∙ k };

    fn page(&mut self, number: u16) -> Result<&Page, NotYet> {
        if usize::from(number) < self.pages.len() {
            Ok(self.pages.get(usize::from(number)))
        } else {
            Ok(&self.blank)
        }
    }
}

impl Store {
    /// Applies a plan. Whether each change could be applied.
    pub(crate) fn apply_all(&mut self, plan: &Plan) -> bool {
        for i in 0..plan.len() {
            if !self.apply_one(plan.page(i), plan.change(i)) {
                return false;
            }
        }
        true
    }

    fn apply_one(&mut self, number: u16, change: &Change) -> bool {
        let number = usize::from(number);
        if self.pages.len() <= number {
            return false;
        }
        match checked(change) {
            Some(change) => apply(self.pages.page_mut(number), &change).is_ok(),
            None => false,
        }
    }
}

/// The change, where its cells are those that a page may keep.
fn checked(change: &Change) -> Option<Change>
    ensures { IfSome result HasCells }
{
    match change {
        Change::MakeLeaf { low, high, rows } => Some(Change::MakeLeaf {
            low: *low,
            high: *high,
            rows: checked_rows(rows)?,
        }),
        Change::MakeInner {
            low,
            high,
            children,
        } => Some(Change::MakeInner {
            low: *low,
            high: *high,
            children: checked_children(children)?,
        }),
        Change::MakeUndo => Some(Change::MakeUndo),
        Change::PutRow { row } => Some(Change::PutRow {
            row: checked_row(row)?,
        }),
        Change::RestoreRow { row } => Some(Change::RestoreRow {
            row: checked_row(row)?,
        }),
        Change::Cut { from } => Some(Change::Cut { from: *from }),
        Change::PutChild { child } => Some(Change::PutChild {
            child: checked_child(child)?,
        }),
        Change::PutUndo { row } => Some(Change::PutUndo {
            row: checked_row(row)?,
        }),
        Change::TakePage { page } => Some(Change::TakePage { page: *page }),
    }
}

fn checked_rows(rows: &RowCells) -> Option<RowCells>
    ensures { IfSome result (λ kept. AllByRecursion IsRow kept) }
{
    let mut kept = RowCells::new();
    for i in 0..rows.len() {
        match checked_row(&rows.get(i)) {
            Some(row) => kept.put(row),
            None => return None,
        }
    }
    Some(kept)
}

fn checked_children(children: &ChildCells) -> Option<ChildCells>
    ensures { IfSome result (λ kept. AllByRecursion IsChild kept) }
{
    let mut kept = ChildCells::new();
    for i in 0..children.len() {
        match checked_child(&children.get(i)) {
            Some(child) => kept.put(child),
            None => return None,
        }
    }
    Some(kept)
}

fn checked_row(row: &Row) -> Option<Row>
    ensures { IfSome result IsRow }
{
    let mut bytes = [0; 64];
    write_row(row, &mut bytes);
    read_row(&bytes)
}

fn checked_child(child: &Child) -> Option<Child>
    ensures { IfSome result IsChild }
{
    let child = *child;
    if 2 <= child.page && child.page < 4096 {
        Some(child)
    } else {
        None
    }
}
