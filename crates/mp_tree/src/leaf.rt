//! What is read from one page.

ghost use Rattle.std.specs.Prelude.{◌≡◌, ◌<◌, IsTrue, IfSome};
ghost use Rattle.std.specs.List.{AllByRecursion};
ghost use Rattle.mp_cells.specs.declared.kinds.Kind.TheVariants.{Leaf, Inner};
ghost use Rattle.mp_cells.specs.Rows.{IsRow};
ghost use Rattle.mp_cells.specs.Children.{IsChild};
ghost use Rattle.mp_cells.specs.PageView.{IsPage};
ghost use Rattle.mp_cells.specs.Changes.{holds_row};
ghost use Rattle.mp_cells.specs.Trees.{row_at, child_at};
ghost use Rattle.mp_plans.specs.Growth.{has_place};
ghost use Rattle.mp_tree.specs.Searches.{rows_above};

use mp_page::{Child, Page, Row, RowCells};

/// The child of an inner page that may hold a key.
pub(crate) fn child_for(page: &Page, key: u32) -> Child
    requires page { IsPage page.now }
    requires kind { page.now.kind ≡ Inner }
    ensures child { result ≡ child_at key page.now.children }
    ensures kept { IsChild result }
{
    let mut child = page.child(0);
    for i in 1..page.count() {
        let next = page.child(i);
        if key < next.low {
            return child;
        }
        child = next;
    }
    child
}

/// A leaf's row of a key.
pub fn row_in(page: &Page, key: u32) -> Option<Row>
    requires page { IsPage page.now }
    requires kind { page.now.kind ≡ Leaf }
    ensures value { result ≡ row_at key page.now.rows }
    ensures kept { IfSome result IsRow }
{
    for i in 0..page.count() {
        let row = page.row(i);
        if row.key == key {
            return Some(row);
        }
    }
    None
}

/// A leaf's rows from a key on.
pub fn rows_in(page: &Page, low: u32) -> RowCells
    requires page { IsPage page.now }
    requires kind { page.now.kind ≡ Leaf }
    ensures value { result ≡ rows_above low page.now.rows }
    ensures kept { AllByRecursion IsRow result }
{
    let mut rows = RowCells::new();
    for i in 0..page.count() {
        let row = page.row(i);
        if low <= row.key {
            rows.put(row);
        }
    }
    rows
}

/// Whether a leaf holds a key.
pub(crate) fn holds_key(page: &Page, key: u32) -> bool
    requires page { IsPage page.now }
    requires kind { page.now.kind ≡ Leaf }
    ensures { result ≡ holds_row key page.now }
{
    row_in(page, key).is_some()
}

/// Whether a leaf has a place for a key's row: it holds the key, or has fewer than 15 rows.
pub(crate) fn has_place(page: &Page, key: u32) -> bool
    requires page { IsPage page.now }
    requires kind { page.now.kind ≡ Leaf }
    ensures { result ≡ has_place key page.now }
{
    holds_key(page, key) || page.count() < 15
}
