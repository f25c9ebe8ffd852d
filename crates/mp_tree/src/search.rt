//! Searches from the root down to a leaf.

ghost use Rattle.std.specs.Prelude.{◌≡◌, ℕ, ◌<◌, Some, IfOk, IfSome, OnOk};
ghost use Rattle.std.specs.List.{AllByRecursion};
ghost use Rattle.mp_cells.specs.Rows.{IsRow};
ghost use Rattle.mp_cells.specs.PageView.{IsPage};
ghost use Rattle.mp_cells.specs.Trees.{PageMap, IsTree, tree_rows, row_at};
ghost use Rattle.mp_page.specs.Pagers.{Extends};
ghost use Rattle.mp_tree.specs.Searches.{Looks, Asks, IsOnPath, IsLeafRead, AreLeafRows, IsPathAt, path_on};

use crate::leaf::{child_for, row_in, rows_in};
use mp_model::NotYet;
use mp_page::{Kind, Page, Pager, Row, RowCells};

/// The rows of one leaf from a key on, and the leaf's high fence.
#[derive(Clone, Copy, Debug)]
pub struct LeafRows {
    pub rows: RowCells,
    pub next: u64,
}

/// What a search sees in one page.
#[derive(Clone, Copy, Debug)]
pub enum Look {
    /// A leaf: the search ends here.
    Leaf,
    /// An inner page: the search goes on at this one (below 4,096).
    Below(u16),
    /// Neither: the pages are no tree.
    Lost,
}

/// Looks at one page on the way to a key.
pub fn look_at(page: &Page, key: u32) -> Look
    ensures looks { Looks key page.now result }
    ensures page { IsPage page.now }
{
    match page.kind() {
        Kind::Leaf => Look::Leaf,
        Kind::Inner => Look::Below(child_for(page, key).page),
        Kind::Blank | Kind::Meta | Kind::Undo => Look::Lost,
    }
}

/// The row of a key in its leaf, which the pager handed out. Over pages that are no tree the answer means nothing. It asks
/// only for pages on the key's path, at most three. `NotYet` is the pager's answer, for one of these, and comes only where
/// the pager gave it; what was handed out stays.
pub fn find<P: Pager>(pager: &mut P, key: u32) -> Result<Option<Row>, NotYet>
    ensures asks { Asks P.handed P.waits P.last P.follows P.withholds (IsOnPath key) 3 pager.old pager.new result }
    ensures found { IfOk result (λ row. (pages : PageMap) → Extends pages (P.handed pager.new) → (height : ℕ) → IsTree pages height → row ≡ row_at key (tree_rows pages height)) }
    ensures leaf { OnOk result ((pages : PageMap) → Extends pages (P.handed pager.new) → (height : ℕ) → IsTree pages height → IsLeafRead (P.handed pager.new) pages height key) }
    ensures kept { IfOk result (λ row. IfSome row IsRow) }
{
    match path_to(pager, key) {
        Ok(Some(path)) => Ok(row_in(&path.leaf.page, key)),
        Ok(None) => Ok(None),
        Err(wait) => Err(wait),
    }
}

/// The rows at or above `low` in the leaf whose fences hold it, and that leaf's high fence: all rows of the tree between
/// the two. The pager handed the leaf out. A scan goes on from that fence, up to 2^32. Over pages that are no tree the
/// answer means nothing. It asks only for pages on the key's path, at most three. `NotYet` is the pager's answer, for one
/// of these, and comes only where the pager gave it; what was handed out stays.
pub fn rows_from<P: Pager>(pager: &mut P, low: u32) -> Result<LeafRows, NotYet>
    ensures asks { Asks P.handed P.waits P.last P.follows P.withholds (IsOnPath low) 3 pager.old pager.new result }
    ensures found { IfOk result (λ found. (pages : PageMap) → Extends pages (P.handed pager.new) → (height : ℕ) → IsTree pages height → AreLeafRows pages height low found) }
    ensures leaf { OnOk result ((pages : PageMap) → Extends pages (P.handed pager.new) → (height : ℕ) → IsTree pages height → IsLeafRead (P.handed pager.new) pages height low) }
    ensures kept { IfOk result (λ found. AllByRecursion IsRow found.rows) }
{
    match path_to(pager, low) {
        Ok(Some(path)) => Ok(LeafRows {
            rows: rows_in(&path.leaf.page, low),
            next: path.leaf.page.high(),
        }),
        Ok(None) => Ok(LeafRows {
            rows: RowCells::new(),
            next: 1 << 32,
        }),
        Err(wait) => Err(wait),
    }
}

/// A page that a search came to.
#[derive(Clone, Copy, Debug)]
pub(crate) struct Stop {
    pub(crate) number: u16,
    pub(crate) page: Page,
}

/// Where a search ends: the leaf that may hold the key, and the page above it; none where the leaf is the root.
#[derive(Clone, Copy, Debug)]
pub(crate) struct Path {
    pub(crate) leaf: Stop,
    pub(crate) parent: Option<Stop>,
}

/// The path to a key; none where the pages are no tree.
pub(crate) fn path_to<P: Pager>(pager: &mut P, key: u32) -> Result<Option<Path>, NotYet>
    ensures asks { Asks P.handed P.waits P.last P.follows P.withholds (IsOnPath key) 3 pager.old pager.new result }
    ensures path { IfOk result (λ found. IfSome found (IsPathAt (P.handed pager.new) key)) }
    ensures found { IfOk result (λ found. (pages : PageMap) → Extends pages (P.handed pager.new) → (height : ℕ) → IsTree pages height → found ≡ Some (path_on pages height key)) }
{
    let mut number = 1;
    let mut above = None;
    for _level in 0..3u8 {
        let page = match pager.page(number) {
            Ok(page) => page,
            Err(wait) => return Err(wait),
        };
        match look_at(page, key) {
            Look::Leaf => return Ok(path_at(number, page, above)),
            Look::Below(child) => {
                above = stop_at(number, page);
                number = child;
            }
            Look::Lost => return Ok(None),
        }
    }
    Ok(None)
}

fn path_at(number: u16, page: &Page, parent: Option<Stop>) -> Option<Path>
    ensures { result ≡ Some (record { leaf = record { number = number; page = page.now }; parent = parent }) }
{
    Some(Path {
        leaf: Stop {
            number,
            page: *page,
        },
        parent,
    })
}

fn stop_at(number: u16, page: &Page) -> Option<Stop>
    ensures { result ≡ Some (record { number = number; page = page.now }) }
{
    Some(Stop {
        number,
        page: *page,
    })
}
