//! The changes of a write, in their order.

ghost use Rattle.std.specs.Prelude.{◌≡◌, ℕ, ◌+◌, ◌≤◌, [], ◌∷◌, ◌++◌, length, is_none, IsTrue, IfSome, if◌then◌else◌};
ghost use Rattle.mp_model.specs.Values.{is_value};
ghost use Rattle.mp_cells.specs.declared.changes.Change.TheVariants.{MakeUndo, PutUndo, PutRow, TakePage};
ghost use Rattle.mp_cells.specs.declared.kinds.Kind.TheVariants.{Leaf};
ghost use Rattle.mp_cells.specs.PageView.{IsPage};
ghost use Rattle.mp_cells.specs.Trees.{PageMap, row_at};
ghost use Rattle.mp_plans.specs.Growth.{leaf_separator, growth_changes, leaf_after, new_pages, takes, write_plan, side, put_child};
ghost use Rattle.mp_cells.specs.Writes.{version_of};
ghost use Rattle.mp_tree.specs.Planning.{shape_of, HasPages, CanSplit, IsFullInner, IsSound};
ghost use Rattle.mp_tree.specs.declared.growth.Growth.TheVariants.{Inner as WithParent, Higher};
ghost use Rattle.mp_tree.specs.Writing.{link_of, row_of};

use crate::growth::{Growth, Reading};
use crate::halves::{
    inner_separator, leaf_separator, put_inner_parts, put_leaf_parts, put_root_inner_parts,
    put_root_leaf_parts,
};
use crate::leaf::row_in;
use crate::new_pages::{New, is_fresh};
use crate::plan::Plan;
use crate::search::Stop;
use crate::write::Write;
use mp_model::Value;
use mp_page::{Change, Child, Link, Page, Row};

/// All changes of a write.
pub(crate) fn put_write(plan: &mut Plan, reading: &Reading, new: &New, write: &Write)
    requires empty { plan.old ≡ [] }
    requires sound { IsSound reading.now }
    ensures plan { (given : PageMap) → given reading.now.leaf.number ≡ reading.now.leaf.page → HasPages given reading.now.growth → plan.new ≡ write_plan (shape_of reading.now.growth) reading.now.leaf.number (is_none reading.now.place) (link_of reading.now.place new.now.undo).page given new.now.first new.now.second new.now.third (row_of write.now (link_of reading.now.place new.now.undo)) }
    ensures value { IfSome write.now.value (λ value. IsTrue (is_value value)) }
{
    let fresh = is_fresh(reading);
    let link = link_of(reading.place, new.undo);
    put_takes(plan, fresh, &reading.growth, new);
    put_undo_page(plan, fresh, new.undo);
    put_growth(plan, &reading.leaf, &reading.growth, new);
    let target = leaf_after(&reading.leaf, &reading.growth, write.key, new);
    put_rows(plan, &reading.leaf.page, link, target, write);
}

/// The place of the undo record.
fn link_of(place: Option<Link>, undo: u16) -> Link
    ensures { result ≡ link_of place undo }
{
    match place {
        None => Link {
            page: undo,
            index: 0,
        },
        Some(link) => link,
    }
}

/// Each new page is taken.
fn put_takes(plan: &mut Plan, fresh: bool, growth: &Growth, new: &New)
    requires { plan.old ≡ [] }
    ensures plan { plan.new ≡ takes (new_pages fresh new.now.undo (shape_of growth.now) new.now.first new.now.second new.now.third) }
    ensures count { length plan.new ≤ 4 }
{
    if fresh {
        put_take(plan, new.undo);
    }
    match growth {
        Growth::Stays => (),
        Growth::Leaf(_) => put_take(plan, new.first),
        Growth::NewRoot | Growth::Inner(_) => {
            put_take(plan, new.first);
            put_take(plan, new.second);
        }
        Growth::Higher(_) => {
            put_take(plan, new.first);
            put_take(plan, new.second);
            put_take(plan, new.third);
        }
    }
}

fn put_take(plan: &mut Plan, page: u16)
    requires { length plan.old ≤ 19 }
    ensures { plan.new ≡ plan.old ++ (0, TakePage page) ∷ [] }
{
    plan.put(0, Change::TakePage { page });
}

/// A fresh undo page is made.
fn put_undo_page(plan: &mut Plan, fresh: bool, undo: u16)
    requires { length plan.old ≤ 19 }
    ensures { plan.new ≡ plan.old ++ (if fresh then (undo, MakeUndo) ∷ [] else []) }
{
    if fresh {
        plan.put(undo, Change::MakeUndo);
    }
}

/// The changes by which the tree grows.
fn put_growth(plan: &mut Plan, leaf: &Stop, growth: &Growth, new: &New)
    requires room { length plan.old ≤ 12 }
    requires page { IsPage leaf.now.page }
    requires kind { leaf.now.page.kind ≡ Leaf }
    requires split { CanSplit leaf.now.page growth.now }
    ensures plan { (given : PageMap) → given leaf.now.number ≡ leaf.now.page → HasPages given growth.now → plan.new ≡ plan.old ++ growth_changes (shape_of growth.now) leaf.now.number given new.now.first new.now.second new.now.third }
    ensures count { length plan.new ≤ length plan.old + 6 }
{
    match growth {
        Growth::Stays => (),
        Growth::NewRoot => put_root_leaf_parts(plan, &leaf.page, new.first, new.second),
        Growth::Leaf(parent) => {
            put_leaf_parts(plan, leaf, new.first);
            put_child(plan, *parent, leaf_separator(&leaf.page), new.first);
        }
        Growth::Inner(parent) => put_with_parent(plan, leaf, parent, new),
        Growth::Higher(root) => put_with_root(plan, leaf, root, new),
    }
}

fn put_child(plan: &mut Plan, parent: u16, low: u32, page: u16)
    requires { length plan.old ≤ 19 }
    ensures { plan.new ≡ plan.old ++ put_child parent low page ∷ [] }
{
    plan.put(
        parent,
        Change::PutChild {
            child: Child { low, page },
        },
    );
}

/// A leaf is split and its parent too, under the root.
fn put_with_parent(plan: &mut Plan, leaf: &Stop, parent: &Stop, new: &New)
    requires room { length plan.old ≤ 12 }
    requires page { IsPage leaf.now.page }
    requires kind { leaf.now.page.kind ≡ Leaf }
    requires full { length leaf.now.page.rows ≡ 15 }
    requires parent { IsFullInner parent.now.page }
    ensures plan { (given : PageMap) → given leaf.now.number ≡ leaf.now.page → given parent.now.number ≡ parent.now.page → plan.new ≡ plan.old ++ growth_changes (shape_of (WithParent parent.now)) leaf.now.number given new.now.first new.now.second new.now.third }
    ensures count { length plan.new ≡ length plan.old + 6 }
{
    let low = leaf_separator(&leaf.page);
    let bound = inner_separator(&parent.page);
    put_leaf_parts(plan, leaf, new.first);
    put_inner_parts(plan, parent, new.second);
    let target = side(low, bound, parent.number, new.second);
    put_child(plan, target, low, new.first);
    put_child(plan, 1, bound, new.second);
}

/// A leaf is split and its parent too, which is the root.
fn put_with_root(plan: &mut Plan, leaf: &Stop, root: &Page, new: &New)
    requires room { length plan.old ≤ 12 }
    requires page { IsPage leaf.now.page }
    requires kind { leaf.now.page.kind ≡ Leaf }
    requires full { length leaf.now.page.rows ≡ 15 }
    requires root { IsFullInner root.now }
    ensures plan { (given : PageMap) → given leaf.now.number ≡ leaf.now.page → given 1 ≡ root.now → plan.new ≡ plan.old ++ growth_changes (shape_of (Higher root.now)) leaf.now.number given new.now.first new.now.second new.now.third }
    ensures count { length plan.new ≡ length plan.old + 6 }
{
    let low = leaf_separator(&leaf.page);
    let bound = inner_separator(root);
    put_leaf_parts(plan, leaf, new.first);
    put_root_inner_parts(plan, root, new.second, new.third);
    let target = side(low, bound, new.second, new.third);
    put_child(plan, target, low, new.first);
}

/// The page on the side of a separator that a key is on.
fn side(key: u32, separator: u32, left: u16, right: u16) -> u16
    ensures { result ≡ side key separator left right }
{
    if key < separator { left } else { right }
}

/// The leaf that takes a key's row.
fn leaf_after(leaf: &Stop, growth: &Growth, key: u32, new: &New) -> u16
    requires split { CanSplit leaf.now.page growth.now }
    ensures { (given : PageMap) → given leaf.now.number ≡ leaf.now.page → result ≡ leaf_after (shape_of growth.now) key leaf.now.number given new.now.first new.now.second }
{
    match growth {
        Growth::Stays => leaf.number,
        Growth::NewRoot => side(key, leaf_separator(&leaf.page), new.first, new.second),
        Growth::Leaf(_) => side(key, leaf_separator(&leaf.page), leaf.number, new.first),
        Growth::Inner(_) => side(key, leaf_separator(&leaf.page), leaf.number, new.first),
        Growth::Higher(_) => side(key, leaf_separator(&leaf.page), leaf.number, new.first),
    }
}

/// The former version becomes an undo record, and the row is put.
fn put_rows(plan: &mut Plan, leaf: &Page, link: Link, target: u16, write: &Write)
    requires room { length plan.old ≤ 18 }
    requires page { IsPage leaf.now }
    requires kind { leaf.now.kind ≡ Leaf }
    ensures plan { plan.new ≡ plan.old ++ (link.page, PutUndo (version_of write.now.key (row_at write.now.key leaf.now.rows))) ∷ (target, PutRow (row_of write.now link)) ∷ [] }
    ensures value { IfSome write.now.value (λ value. IsTrue (is_value value)) }
{
    plan.put(
        link.page,
        Change::PutUndo {
            row: version_in(leaf, write.key),
        },
    );
    plan.put(
        target,
        Change::PutRow {
            row: row_of(write, link),
        },
    );
}

/// The version of a key that a write replaces.
fn version_in(leaf: &Page, key: u32) -> Row
    requires page { IsPage leaf.now }
    requires kind { leaf.now.kind ≡ Leaf }
    ensures { result ≡ version_of key (row_at key leaf.now.rows) }
{
    match row_in(leaf, key) {
        Some(row) => row,
        None => Row {
            key,
            value: None,
            writer: None,
            link: None,
        },
    }
}

/// The row that a write puts.
fn row_of(write: &Write, link: Link) -> Row
    ensures row { result ≡ row_of write.now link }
    ensures value { IfSome write.now.value (λ value. IsTrue (is_value value)) }
{
    check_value(&write.value);
    Row {
        key: write.key,
        value: write.value,
        writer: Some(write.writer),
        link: Some(link),
    }
}

// A value is of 1 to 32 bytes that a value may have: what is known of every one is handed out here.
fn check_value(value: &Option<Value>)
    ensures { IfSome value.now (λ value. IsTrue (is_value value)) }
{
    if let Some(value) = value {
        let _bytes = value.as_slice();
    }
}
