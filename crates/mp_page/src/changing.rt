//! Changes applied to pages.

ghost use Rattle.std.specs.Prelude.{◌≡◌, ℕ, ◌==◌, ◌&&◌, nat_le, nat_lt, length, IsTrue};
ghost use Rattle.mp_cells.specs.declared.changes.Change.TheVariants.{MakeLeaf, MakeInner, MakeUndo, PutRow, RestoreRow, Cut, PutChild, PutUndo, TakePage};
ghost use Rattle.mp_cells.specs.PageView.{is_leaf, is_inner, begins_at, leaf_page, inner_page, bit_of};
ghost use Rattle.mp_cells.specs.Changes.{Applies, HasCells, can_be_inner, takes_row, takes_child};
ghost use Rattle.mp_page.specs.Shown.{page_shown, IsBody};

use crate::bits::{is_taken, set_bit};
use crate::body::Body;
use crate::page::Page;
use crate::reading::are_fences;
use mp_cells::{Change, Child, ChildCells, NotApplicable, Row, RowCells};

/// Applies a change to a page, whose LLSN stays as it is. It is refused exactly where the change's condition on the page
/// fails, and the page is then as it was. It takes no memory.
pub fn apply(page: &mut Page, change: &Change) -> Result<(), NotApplicable>
    requires { HasCells change.now }
    ensures { Applies change.now page.old page.new result }
{
    page.apply(change)
}

/// Applies a change to what a page holds.
pub(crate) fn change_body(body: &mut Body, change: &Change) -> Result<(), NotApplicable>
    requires cells { HasCells change.now }
    requires kept { IsBody body.old }
    ensures { (llsn : ℕ) → Applies change.now (page_shown llsn body.old) (page_shown llsn body.new) result }
{
    match change {
        Change::MakeLeaf { low, high, rows } => make_leaf(body, *low, *high, rows),
        Change::MakeInner {
            low,
            high,
            children,
        } => make_inner(body, *low, *high, children),
        Change::MakeUndo => make_undo(body),
        Change::PutRow { row } => put_row(body, row),
        Change::RestoreRow { row } => restore_row(body, row),
        Change::Cut { from } => cut(body, *from),
        Change::PutChild { child } => put_child(body, child),
        Change::PutUndo { row } => put_undo(body, row),
        Change::TakePage { page } => take_page(body, *page),
    }
}

fn make_leaf(body: &mut Body, low: u64, high: u64, rows: &RowCells) -> Result<(), NotApplicable>
    ensures { (llsn : ℕ) → Applies (MakeLeaf low high rows.now) (page_shown llsn body.old) (page_shown llsn body.new) result }
{
    let Body::Blank = body else {
        return Err(NotApplicable);
    };
    if !is_leaf(low, high, rows) {
        return Err(NotApplicable);
    }
    *body = Body::Leaf {
        low,
        high,
        rows: *rows,
    };
    Ok(())
}

fn is_leaf(low: u64, high: u64, rows: &RowCells) -> bool
    ensures { result ≡ is_leaf low high rows.now }
{
    are_fences(low, high) && rows.len() <= 15 && rows.rises(low, high)
}

fn make_inner(
    body: &mut Body,
    low: u64,
    high: u64,
    children: &ChildCells,
) -> Result<(), NotApplicable>
    ensures { (llsn : ℕ) → Applies (MakeInner low high children.now) (page_shown llsn body.old) (page_shown llsn body.new) result }
{
    if !can_be_inner(body, low, high) || !is_inner(low, high, children) {
        return Err(NotApplicable);
    }
    *body = Body::Inner {
        low,
        high,
        children: *children,
    };
    Ok(())
}

fn can_be_inner(body: &Body, low: u64, high: u64) -> bool
    ensures { (llsn : ℕ) → result ≡ can_be_inner low high (page_shown llsn body.now) }
{
    match body {
        Body::Blank => true,
        Body::Leaf {
            low: l,
            high: h,
            ..
        }
        | Body::Inner {
            low: l,
            high: h,
            ..
        } => *l == low && *h == high,
        Body::Meta(_) | Body::Undo(_) => false,
    }
}

fn is_inner(low: u64, high: u64, children: &ChildCells) -> bool
    ensures { result ≡ is_inner low high children.now }
{
    are_fences(low, high)
        && begins_at(low, children.as_slice())
        && children.len() <= 124
        && children.rises(low, high)
}

fn begins_at(low: u64, children: &[Child]) -> bool
    ensures { result ≡ begins_at low children.now }
{
    match children.first() {
        Some(child) => u64::from(child.low) == low,
        None => false,
    }
}

fn make_undo(body: &mut Body) -> Result<(), NotApplicable>
    ensures { (llsn : ℕ) → Applies MakeUndo (page_shown llsn body.old) (page_shown llsn body.new) result }
{
    let Body::Blank = body else {
        return Err(NotApplicable);
    };
    *body = Body::Undo(RowCells::new());
    Ok(())
}

fn put_row(body: &mut Body, row: &Row) -> Result<(), NotApplicable>
    requires { IsBody body.old }
    ensures { (llsn : ℕ) → Applies (PutRow row.now) (page_shown llsn body.old) (page_shown llsn body.new) result }
{
    let Body::Leaf { low, high, rows } = body else {
        return Err(NotApplicable);
    };
    if !takes_row(*low, *high, rows, row) {
        return Err(NotApplicable);
    }
    rows.put_at_key(*row);
    Ok(())
}

fn takes_row(low: u64, high: u64, rows: &RowCells, row: &Row) -> bool
    requires { IsTrue (is_leaf low high rows.now) }
    ensures { (llsn : ℕ) → result ≡ takes_row row.now (leaf_page llsn low high rows.now) }
{
    let key = u64::from(row.key);
    low <= key && key < high && row.writer.is_some() && (rows.holds(row.key) || rows.len() < 15)
}

fn restore_row(body: &mut Body, row: &Row) -> Result<(), NotApplicable>
    requires { IsBody body.old }
    ensures { (llsn : ℕ) → Applies (RestoreRow row.now) (page_shown llsn body.old) (page_shown llsn body.new) result }
{
    let Body::Leaf { rows, .. } = body else {
        return Err(NotApplicable);
    };
    if !rows.holds(row.key) {
        return Err(NotApplicable);
    }
    rows.put_at_key(*row);
    Ok(())
}

fn cut(body: &mut Body, from: u32) -> Result<(), NotApplicable>
    requires { IsBody body.old }
    ensures { (llsn : ℕ) → Applies (Cut from) (page_shown llsn body.old) (page_shown llsn body.new) result }
{
    match body {
        Body::Leaf { low, high, rows } => {
            if !is_between(*low, *high, from) {
                return Err(NotApplicable);
            }
            rows.cut(from);
            *high = u64::from(from);
            Ok(())
        }
        Body::Inner {
            low,
            high,
            children,
        } => {
            if !is_between(*low, *high, from) {
                return Err(NotApplicable);
            }
            children.cut(from);
            *high = u64::from(from);
            Ok(())
        }
        Body::Blank | Body::Meta(_) | Body::Undo(_) => Err(NotApplicable),
    }
}

fn is_between(low: u64, high: u64, key: u32) -> bool
    ensures { result ≡ (nat_lt low key && nat_lt key high) }
{
    low < u64::from(key) && u64::from(key) < high
}

fn put_child(body: &mut Body, child: &Child) -> Result<(), NotApplicable>
    requires { IsBody body.old }
    ensures { (llsn : ℕ) → Applies (PutChild child.now) (page_shown llsn body.old) (page_shown llsn body.new) result }
{
    let Body::Inner {
        low,
        high,
        children,
    } = body
    else {
        return Err(NotApplicable);
    };
    if !takes_child(*low, *high, children, child) {
        return Err(NotApplicable);
    }
    children.put_at_key(*child);
    Ok(())
}

fn takes_child(low: u64, high: u64, children: &ChildCells, child: &Child) -> bool
    requires { IsTrue (is_inner low high children.now) }
    ensures { (llsn : ℕ) → result ≡ takes_child child.now (inner_page llsn low high children.now) }
{
    is_between(low, high, child.low) && !children.holds(child.low) && children.len() < 124
}

fn put_undo(body: &mut Body, row: &Row) -> Result<(), NotApplicable>
    requires { IsBody body.old }
    ensures { (llsn : ℕ) → Applies (PutUndo row.now) (page_shown llsn body.old) (page_shown llsn body.new) result }
{
    let Body::Undo(rows) = body else {
        return Err(NotApplicable);
    };
    if 15 <= rows.len() {
        return Err(NotApplicable);
    }
    rows.put(*row);
    Ok(())
}

fn take_page(body: &mut Body, page: u16) -> Result<(), NotApplicable>
    requires { IsBody body.old }
    ensures { (llsn : ℕ) → Applies (TakePage page) (page_shown llsn body.old) (page_shown llsn body.new) result }
{
    let Body::Meta(bits) = body else {
        return Err(NotApplicable);
    };
    let bits = &mut bits[..];
    if !is_free(bits, page) {
        return Err(NotApplicable);
    }
    set_bit(bits, page);
    Ok(())
}

fn is_free(bits: &[u8], page: u16) -> bool
    requires { length bits.now ≡ 512 }
    ensures { result ≡ (nat_le 2 page && nat_lt page 4096 && bit_of bits.now page == 0) }
{
    2 <= page && page < 4096 && !is_taken(bits, page)
}
