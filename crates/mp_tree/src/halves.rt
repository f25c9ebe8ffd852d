//! The two parts of a full page.

ghost use Rattle.std.specs.Prelude.{◌≡◌, ◌+◌, ◌-◌, ◌<◌, ◌≤◌, [], ◌∷◌, ◌++◌, length, take, drop};
ghost use Rattle.mp_cells.specs.declared.changes.Change.TheVariants.{MakeLeaf, MakeInner};
ghost use Rattle.mp_cells.specs.declared.kinds.Kind.TheVariants.{Leaf, Inner};
ghost use Rattle.mp_cells.specs.PageView.{IsPage};
ghost use Rattle.mp_cells.specs.Trees.{top};
ghost use Rattle.mp_plans.specs.Growth.{leaf_separator, inner_separator, leaf_parts, inner_parts, root_leaf_parts, root_inner_parts, two_children};
ghost use Rattle.mp_tree.specs.Planning.{IsFullInner};

use crate::plan::Plan;
use crate::search::Stop;
use mp_page::{Change, Child, ChildCells, Page, RowCells};

/// A full leaf's rows in its left part.
const LEFT_ROWS: u16 = 8;

/// A full inner page's children in its left part.
const LEFT_CHILDREN: u16 = 62;

/// The bound above all keys.
const TOP: u64 = 1 << 32;

/// The parts of a full leaf: the first key of the right one, and their rows.
#[derive(Clone, Copy, Debug)]
struct LeafHalves {
    separator: u32,
    left: RowCells,
    right: RowCells,
}

/// The parts of a full inner page: the first key of the right one, and their children.
#[derive(Clone, Copy, Debug)]
struct InnerHalves {
    separator: u32,
    left: ChildCells,
    right: ChildCells,
}

fn leaf_halves(page: &Page) -> LeafHalves
    requires page { IsPage page.now }
    requires kind { page.now.kind ≡ Leaf }
    requires full { length page.now.rows ≡ 15 }
    ensures separator { result.separator ≡ leaf_separator page.now }
    ensures left { result.left ≡ take 8 page.now.rows }
    ensures right { result.right ≡ drop 8 page.now.rows }
{
    LeafHalves {
        separator: leaf_separator(page),
        left: rows_of(page, 0, LEFT_ROWS),
        right: rows_of(page, LEFT_ROWS, 15),
    }
}

/// The rows of a page between two places.
fn rows_of(page: &Page, from: u16, to: u16) -> RowCells
    requires order { from ≤ to }
    requires end { to ≤ length page.now.rows }
    requires most { to ≤ 15 }
    ensures { result ≡ take (to - from) (drop from page.now.rows) }
{
    let mut rows = RowCells::new();
    for i in from..to {
        rows.put(page.row(i));
    }
    rows
}

fn inner_halves(page: &Page) -> InnerHalves
    requires { IsFullInner page.now }
    ensures separator { result.separator ≡ inner_separator page.now }
    ensures left { result.left ≡ take 62 page.now.children }
    ensures right { result.right ≡ drop 62 page.now.children }
{
    InnerHalves {
        separator: inner_separator(page),
        left: children_of(page, 0, LEFT_CHILDREN),
        right: children_of(page, LEFT_CHILDREN, 124),
    }
}

/// The children of a page between two places.
fn children_of(page: &Page, from: u16, to: u16) -> ChildCells
    requires order { from ≤ to }
    requires end { to ≤ length page.now.children }
    requires most { to ≤ 124 }
    ensures { result ≡ take (to - from) (drop from page.now.children) }
{
    let mut children = ChildCells::new();
    for i in from..to {
        children.put(page.child(i));
    }
    children
}

/// The first key of a full leaf's right part.
pub(crate) fn leaf_separator(page: &Page) -> u32
    requires { 8 < length page.now.rows }
    ensures { result ≡ leaf_separator page.now }
{
    page.row(LEFT_ROWS).key
}

/// The first key of a full inner page's right part.
pub(crate) fn inner_separator(page: &Page) -> u32
    requires { 62 < length page.now.children }
    ensures { result ≡ inner_separator page.now }
{
    page.child(LEFT_CHILDREN).low
}

/// A full leaf becomes its left part, and a new page its right part.
pub(crate) fn put_leaf_parts(plan: &mut Plan, leaf: &Stop, right: u16)
    requires room { length plan.old ≤ 18 }
    requires page { IsPage leaf.now.page }
    requires kind { leaf.now.page.kind ≡ Leaf }
    requires full { length leaf.now.page.rows ≡ 15 }
    ensures { plan.new ≡ plan.old ++ leaf_parts leaf.now.page leaf.now.number right }
{
    let halves = leaf_halves(&leaf.page);
    plan.put(
        right,
        Change::MakeLeaf {
            low: u64::from(halves.separator),
            high: leaf.page.high(),
            rows: halves.right,
        },
    );
    plan.put(
        leaf.number,
        Change::Cut {
            from: halves.separator,
        },
    );
}

/// A full inner page becomes its left part, and a new page its right part.
pub(crate) fn put_inner_parts(plan: &mut Plan, inner: &Stop, right: u16)
    requires room { length plan.old ≤ 18 }
    requires full { IsFullInner inner.now.page }
    ensures { plan.new ≡ plan.old ++ inner_parts inner.now.page inner.now.number right }
{
    let halves = inner_halves(&inner.page);
    plan.put(
        right,
        Change::MakeInner {
            low: u64::from(halves.separator),
            high: inner.page.high(),
            children: halves.right,
        },
    );
    plan.put(
        inner.number,
        Change::Cut {
            from: halves.separator,
        },
    );
}

/// Both parts of a root that is a full leaf become new pages, and the root an inner page of these two.
pub(crate) fn put_root_leaf_parts(plan: &mut Plan, page: &Page, left: u16, right: u16)
    requires room { length plan.old ≤ 17 }
    requires page { IsPage page.now }
    requires kind { page.now.kind ≡ Leaf }
    requires full { length page.now.rows ≡ 15 }
    ensures { plan.new ≡ plan.old ++ root_leaf_parts page.now left right }
{
    let halves = leaf_halves(page);
    let low = u64::from(halves.separator);
    plan.put(
        left,
        Change::MakeLeaf {
            low: 0,
            high: low,
            rows: halves.left,
        },
    );
    plan.put(
        right,
        Change::MakeLeaf {
            low,
            high: TOP,
            rows: halves.right,
        },
    );
    put_root(plan, halves.separator, left, right);
}

/// Both parts of a root that is a full inner page become new pages, and the root an inner page of these two.
pub(crate) fn put_root_inner_parts(plan: &mut Plan, page: &Page, left: u16, right: u16)
    requires room { length plan.old ≤ 17 }
    requires full { IsFullInner page.now }
    ensures { plan.new ≡ plan.old ++ root_inner_parts page.now left right }
{
    let halves = inner_halves(page);
    let low = u64::from(halves.separator);
    plan.put(
        left,
        Change::MakeInner {
            low: 0,
            high: low,
            children: halves.left,
        },
    );
    plan.put(
        right,
        Change::MakeInner {
            low,
            high: TOP,
            children: halves.right,
        },
    );
    put_root(plan, halves.separator, left, right);
}

/// The root becomes an inner page of two children.
fn put_root(plan: &mut Plan, separator: u32, left: u16, right: u16)
    requires { length plan.old < 20 }
    ensures { plan.new ≡ plan.old ++ (1, MakeInner 0 top (two_children separator left right)) ∷ [] }
{
    let mut children = ChildCells::new();
    children.put(Child { low: 0, page: left });
    children.put(Child {
        low: separator,
        page: right,
    });
    plan.put(
        1,
        Change::MakeInner {
            low: 0,
            high: TOP,
            children,
        },
    );
}
