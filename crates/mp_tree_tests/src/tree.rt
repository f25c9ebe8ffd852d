//! Searches and plans over a tree of pages in memory.

ghost use Rattle.std.specs.Prelude.{◌<◌, ◌≤◌, IsTrue, IfSome};
ghost use Rattle.mp_cells.specs.Rows.{is_writer, IsRow};

use crate::tree_memory::Store;
use mp_model::{NotYet, TrxId, Value};
use mp_page::{Change, Kind, Page, Pager, Pages, Row, read_page};
use mp_tree::{Plan, PlanKind, PlanRefusal, Write, find, plan_restore, plan_write, rows_from};
use std::alloc::Global;
use std::test::*;

// Pages 0, 1 and 2, and blank pages behind them.
#[derive(Debug, Drop)]
struct ThreePages {
    meta: Page,
    root: Page,
    undo: Page,
    blank: Page,
}

impl Pager for ThreePages {
    ghost use Rattle.std.specs.Prelude.{◌≡◌, ◌==◌, ℕ, Some, refl, if◌then◌else◌};
    ghost use Rattle.std.proofs.Common.{◌∙◌};
    ghost use Rattle.mp_model.specs.declared.waiting.WordKind.TheVariants.{Lock};

    ghost handed = { λ p n. Some (if n == 0 then p.meta else (if n == 1 then p.root else (if n == 2 then p.undo else p.blank))) };

    ghost waits = { λ p. 0 };

    ghost last = { λ p. record { of = Lock; at = 0; seen = 0 } };

    ghost follows = { λ p q. p ≡ q };

    ghost withholds = { λ p n. ⊥ };

    ghost follows_self = { λ p. refl };

    ghost follows_on = { λ p q r h k. h ∙ k };

    fn page(&mut self, number: u16) -> Result<&Page, NotYet> {
        if number == 0 {
            Ok(&self.meta)
        } else if number == 1 {
            Ok(&self.root)
        } else if number == 2 {
            Ok(&self.undo)
        } else {
            Ok(&self.blank)
        }
    }
}

// The bytes of a page of this kind with 15 gone rows, of keys 1 to 15.
fn full_page(kind: u8) -> [u8; 1024] {
    let mut bytes = [0; 1024];
    bytes[0] = kind;
    bytes[1] = 1;
    bytes[2] = 15;
    for i in 0..15usize {
        bytes[32 + 64 * i] = i as u8 + 1;
    }
    bytes
}

// The root is a full leaf, and page 2 a full undo page; so many bytes of the meta page's bits are ones, after the first.
fn worked_tree(ones: usize) -> Option<ThreePages> {
    let mut meta = [0; 1024];
    meta[0] = 1;
    meta[1] = 1;
    meta[32] = 7;
    let mut leaf = full_page(2);
    leaf[28] = 1;
    let undo = full_page(4);
    set_ones(&mut meta, ones);
    match (read_page(&meta), read_page(&leaf), read_page(&undo)) {
        (Ok(meta), Ok(root), Ok(undo)) => Some(ThreePages {
            meta,
            root,
            undo,
            blank: Page::blank(),
        }),
        _ => None,
    }
}

// With ones, all pages but 3 and 4 are taken.
fn set_ones(meta: &mut [u8; 1024], ones: usize) {
    meta[2] = 3;
    if ones == 0 {
        return;
    }
    meta[2] = 0xfe;
    meta[3] = 0x0f;
    meta[32] = 0xe7;
    for i in 33..544usize {
        meta[i] = 0xff;
    }
}

// A change in short: its name, two numbers and a count of cells.
fn outline(change: &Change) -> (&'static str, u64, u64, usize) {
    match change {
        Change::MakeLeaf { low, high, rows } => ("leaf", *low, *high, rows.len()),
        Change::MakeInner {
            low,
            high,
            children,
        } => ("inner", *low, *high, children.len()),
        Change::MakeUndo => ("undo page", 0, 0, 0),
        Change::PutRow { row } => ("row", u64::from(row.key), 0, 0),
        Change::RestoreRow { row } => ("restore", u64::from(row.key), 0, 0),
        Change::Cut { from } => ("cut", u64::from(*from), 0, 0),
        Change::PutChild { child } => ("child", u64::from(child.low), u64::from(child.page), 0),
        Change::PutUndo { row } => ("undo", u64::from(row.key), 0, 0),
        Change::TakePage { page } => ("take", u64::from(*page), 0, 0),
    }
}

fn write_of(key: u32) -> Write
    ensures { IsTrue (is_writer result.writer) }
{
    Write {
        key,
        value: Value::read(b"a"),
        writer: TrxId {
            node: 1,
            slot: 0,
            version: 1,
        },
    }
}

const TOP: u64 = 1 << 32;

#[test]
fn two_clear_pages_are_too_few(rt: HostRuntime) -> Result<(), Fail> {
    let mut pager = worked_tree(511).ok_or("three pages")?;
    let mut plan = Plan::new(rt.alloc()).ok().ok_or("there is memory")?;
    let write = write_of(16);
    let refusal = plan_write(&mut pager, &write, Some(2), &mut plan);
    assert_eq!(rt;
        refusal,
        Err(PlanRefusal::Full {
            needed: 3,
            clear: 2,
        })
    );
    assert_eq!(rt; plan.len(), 0);
    // A key that is there needs a fresh undo page alone.
    let kind = plan_write(&mut pager, &write_of(15), Some(2), &mut plan);
    assert_eq!(rt; kind, Ok(PlanKind::InPlace));
    assert_eq!(rt; plan.len(), 4);
    Ok(())
}

#[test]
fn searches_and_a_restore(rt: HostRuntime) -> Result<(), Fail> {
    let mut pager = worked_tree(0).ok_or("three pages")?;
    let found = find(&mut pager, 7).ok().ok_or("no wait")?;
    let row = found.ok_or("a row")?;
    assert_eq!(rt; row.key, 7);
    assert_eq!(rt; find(&mut pager, 16), Ok(None));
    let rows = rows_from(&mut pager, 14).ok().ok_or("no wait")?;
    assert_eq!(rt; rows.rows.len(), 2);
    assert_eq!(rt; rows.next, TOP);
    let mut plan = Plan::new(rt.alloc()).ok().ok_or("there is memory")?;
    assert_eq!(rt; plan_restore(&mut pager, &gone(7), &mut plan), Ok(()));
    assert_eq!(rt; plan.len(), 1);
    Ok(())
}

fn gone(key: u32) -> Row
    ensures { IsRow result }
{
    Row {
        key,
        value: None,
        writer: None,
        link: None,
    }
}

// A store with an empty root.
fn fresh_store(alloc: Global) -> Option<Store> {
    let mut meta = [0; 1024];
    meta[0] = 1;
    meta[1] = 1;
    meta[2] = 2;
    meta[32] = 3;
    let mut leaf = [0; 1024];
    leaf[0] = 2;
    leaf[1] = 1;
    leaf[28] = 1;
    let mut pages = Pages::new(alloc);
    let (Ok(meta), Ok(leaf)) = (read_page(&meta), read_page(&leaf)) else {
        return None;
    };
    pages.push(meta).ok()?;
    pages.push(leaf).ok()?;
    for _ in 2..4096 {
        pages.push(Page::blank()).ok()?;
    }
    Some(Store {
        pages,
        blank: Page::blank(),
    })
}

// The page of a plan's undo record, where it may be an undo page.
fn undo_page(plan: &Plan) -> Option<u16>
    ensures { IfSome result (λ u. (2 ≤ u) × (u < 4096)) }
{
    for i in 0..plan.len() {
        let page = plan.page(i);
        if let Change::PutUndo { .. } = plan.change(i) {
            return if 2 <= page && page < 4096 {
                Some(page)
            } else {
                None
            };
        }
    }
    None
}

// The keys i * step % 2,003 in the order of i, which are all different. Whether each could be written.
fn writes_all(store: &mut Store, plan: &mut Plan, step: u32) -> bool {
    let mut undo = None;
    for i in 0..2000u32 {
        let key = i.wrapping_mul(step) % 2003;
        if plan_write(store, &write_of(key), undo, plan).is_err() || !store.apply_all(plan) {
            return false;
        }
        undo = undo_page(plan);
    }
    true
}

// Whether each of these keys is found.
fn finds_all(store: &mut Store, step: u32) -> bool {
    for i in 0..2000u32 {
        let key = i.wrapping_mul(step) % 2003;
        match find(store, key) {
            Ok(Some(row)) => {
                if row.key != key {
                    return false;
                }
            }
            _ => return false,
        }
    }
    true
}

// Keys in ascending, in descending and in a shuffled order.
#[test]
fn keys_in_each_order(rt: HostRuntime) -> Result<(), Fail> {
    for step in [1, 2002, 776] {
        assert!(rt; written_by(rt.alloc(), step).ok_or("a store")?);
    }
    Ok(())
}

// Whether the keys could be written and all are found, by searches that go down three levels at most, and whether each
// page but the root keeps the least fill.
fn written_by(alloc: Global, step: u32) -> Option<bool> {
    let mut store = fresh_store(alloc)?;
    let mut plan = Plan::new(alloc).ok()?;
    let is_written = writes_all(&mut store, &mut plan, step) && finds_all(&mut store, step);
    Some(is_written && is_filled(&mut store))
}

fn is_filled(store: &mut Store) -> bool {
    for number in 2..4096 {
        let Ok(page) = store.page(number) else {
            return false;
        };
        let least = match page.kind() {
            Kind::Leaf => 7,
            Kind::Inner => 62,
            _ => 0,
        };
        if page.count() < least {
            return false;
        }
    }
    true
}

// Writes the keys from one on and below another, in ascending order. Answers the undo page then, or none where a key
// couldn't be written.
fn put_keys(
    store: &mut Store,
    plan: &mut Plan,
    from: u32,
    until: u32,
    undo: Option<u16>,
) -> Option<Option<u16>>
    requires { IfSome undo (λ u. (2 ≤ u) × (u < 4096)) }
    ensures { IfSome result (λ last. IfSome last (λ u. (2 ≤ u) × (u < 4096))) }
{
    let mut last = undo;
    for key in from..until {
        if plan_write(store, &write_of(key), last, plan).is_err() || !store.apply_all(plan) {
            return None;
        }
        last = undo_page(plan);
    }
    Some(last)
}

// Whether a plan's changes are these.
fn is_outlined(plan: &Plan, changes: &[(u16, (&str, u64, u64, usize))]) -> bool {
    for i in 0..plan.len() {
        if changes.get(i) != Some(&(plan.page(i), outline(plan.change(i)))) {
            return false;
        }
    }
    plan.len() == changes.len()
}

// Keys 1, 2, .. into a fresh store. Put 16 splits the root, a leaf of 15 rows, and makes the second undo page. Put 24
// splits the second leaf. Put 1,000 splits the 124th leaf, in page 192, whose parent is the root with 124 children: so the
// root is split too. Put 1,496 splits the 186th leaf, and its parent, page 195 with 124 children, under the root.
#[test]
fn the_first_splits(rt: HostRuntime) -> Result<(), Fail> {
    let mut store = fresh_store(rt.alloc()).ok_or("a store")?;
    let mut plan = Plan::new(rt.alloc()).ok().ok_or("there is memory")?;
    let table = [
        (
            16,
            PlanKind::RootSplit,
            [
                (0, ("take", 3, 0, 0)),
                (0, ("take", 4, 0, 0)),
                (0, ("take", 5, 0, 0)),
                (3, ("undo page", 0, 0, 0)),
                (4, ("leaf", 0, 9, 8)),
                (5, ("leaf", 9, TOP, 7)),
                (1, ("inner", 0, TOP, 2)),
                (3, ("undo", 16, 0, 0)),
                (5, ("row", 16, 0, 0)),
            ]
            .as_slice(),
        ),
        (
            24,
            PlanKind::Split,
            &[
                (0, ("take", 6, 0, 0)),
                (6, ("leaf", 17, TOP, 7)),
                (5, ("cut", 17, 0, 0)),
                (1, ("child", 17, 6, 0)),
                (3, ("undo", 24, 0, 0)),
                (6, ("row", 24, 0, 0)),
            ],
        ),
        (
            1000,
            PlanKind::RootSplit,
            &[
                (0, ("take", 193, 0, 0)),
                (0, ("take", 194, 0, 0)),
                (0, ("take", 195, 0, 0)),
                (193, ("leaf", 993, TOP, 7)),
                (192, ("cut", 993, 0, 0)),
                (194, ("inner", 0, 497, 62)),
                (195, ("inner", 497, TOP, 62)),
                (1, ("inner", 0, TOP, 2)),
                (195, ("child", 993, 193, 0)),
                (191, ("undo", 1000, 0, 0)),
                (193, ("row", 1000, 0, 0)),
            ],
        ),
        (
            1496,
            PlanKind::Split,
            &[
                (0, ("take", 290, 0, 0)),
                (0, ("take", 291, 0, 0)),
                (290, ("leaf", 1489, TOP, 7)),
                (289, ("cut", 1489, 0, 0)),
                (291, ("inner", 993, TOP, 62)),
                (195, ("cut", 993, 0, 0)),
                (291, ("child", 1489, 290, 0)),
                (1, ("child", 993, 291, 0)),
                (288, ("undo", 1496, 0, 0)),
                (290, ("row", 1496, 0, 0)),
            ],
        ),
    ];
    let mut from = 1;
    let mut undo = None;
    for (key, kind, changes) in table {
        undo = put_keys(&mut store, &mut plan, from, key, undo).ok_or("each is written")?;
        let planned = plan_write(&mut store, &write_of(key), undo, &mut plan);
        assert_eq!(rt; planned, Ok(kind), "put {key}");
        assert!(rt; is_outlined(&plan, changes), "put {key}");
        from = key;
    }
    Ok(())
}

// The key of the i-th row, record or child of a page; 0 where there is none.
fn key_at(page: &Page, i: u16) -> u32 {
    match page.kind() {
        Kind::Leaf if i < page.count() => page.row(i).key,
        Kind::Undo if i < page.count() => page.row(i).key,
        Kind::Inner if i < page.count() => page.child(i).low,
        _ => 0,
    }
}

// A page in short: its kind, its fences, its count, and its first and its last key.
fn page_outline(page: &Page) -> (Kind, u64, u64, u16, u32, u32) {
    let count = page.count();
    let last = if 0 < count { count - 1 } else { 0 };
    (
        page.kind(),
        page.low(),
        page.high(),
        count,
        key_at(page, 0),
        key_at(page, last),
    )
}

// The pages behind the first split, of keys 1 to 16.
#[test]
fn pages_after_sixteen_puts(rt: HostRuntime) -> Result<(), Fail> {
    let mut store = fresh_store(rt.alloc()).ok_or("a store")?;
    let mut plan = Plan::new(rt.alloc()).ok().ok_or("there is memory")?;
    let undo = put_keys(&mut store, &mut plan, 1, 17, None);
    assert_eq!(rt; undo, Some(Some(3)));
    let table = [
        (Kind::Meta, 0, 0, 6, 0, 0),
        (Kind::Inner, 0, TOP, 2, 0, 9),
        (Kind::Undo, 0, 0, 15, 1, 15),
        (Kind::Undo, 0, 0, 1, 16, 16),
        (Kind::Leaf, 0, 9, 8, 1, 8),
        (Kind::Leaf, 9, TOP, 8, 9, 16),
        (Kind::Blank, 0, 0, 0, 0, 0),
    ];
    for (number, page) in table.iter().enumerate() {
        if number < store.pages.len() {
            assert_eq!(rt; page_outline(store.pages.get(number)), *page);
        }
    }
    Ok(())
}

// Whether the keys below a bound could be written in ascending order, and the next one then finds no page.
fn is_full_behind(store: &mut Store, plan: &mut Plan, bound: u32) -> bool {
    let Some(undo) = put_keys(store, plan, 0, bound, None) else {
        return false;
    };
    let full = PlanRefusal::Full {
        needed: 1,
        clear: 0,
    };
    plan_write(store, &write_of(bound), undo, plan) == Err(full)
}

// 21,143 keys in ascending order take 1,410 undo pages, 2,642 leaves and 42 inner pages beside page 0 and the root: all
// that there are. The next key's leaf is full.
#[test]
fn the_last_free_page(rt: HostRuntime) -> Result<(), Fail> {
    let mut store = fresh_store(rt.alloc()).ok_or("a store")?;
    let mut plan = Plan::new(rt.alloc()).ok().ok_or("there is memory")?;
    assert!(rt; is_full_behind(&mut store, &mut plan, 21_143));
    Ok(())
}
