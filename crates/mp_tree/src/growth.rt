//! How the tree grows for a row: what a search for its key shows.

ghost use Rattle.std.specs.Prelude.{◌≡◌, ◌≢◌, ℕ, suc, ◌<◌, ◌==◌, length, nat_lt, Some, None, IsSome, IfOk, IfSome, if◌then◌else◌};
ghost use Rattle.mp_cells.specs.declared.kinds.Kind.TheVariants.{Leaf, Inner, Undo};
ghost use Rattle.mp_cells.specs.PageView.{IsPage};
ghost use Rattle.mp_cells.specs.Trees.{PageMap, IsTree};
ghost use Rattle.mp_page.specs.Pagers.{Extends};
ghost use Rattle.mp_plans.specs.Growth.{growth_of};
ghost use Rattle.mp_tree.specs.Searches.{Asks, path_on};
ghost use Rattle.mp_tree.specs.Writing.{IsRead};
ghost use Rattle.mp_tree.specs.Planning.{shape_of, growth_under, HasPages, CanSplit, HasUndo, undo_place, IsReading, IsSound};

use crate::leaf::has_place;
use crate::search::{Path, Stop, path_to};
use mp_model::NotYet;
use mp_page::{Kind, Link, Page, Pager};

/// How the tree grows for a row.
#[derive(Clone, Copy, Debug)]
pub(crate) enum Growth {
    /// The leaf has a place for it.
    Stays,
    /// The root, a leaf, is split.
    NewRoot,
    /// The leaf is split, under this parent.
    Leaf(u16),
    /// The leaf is split and its parent too, under the root.
    Inner(Stop),
    /// The leaf is split and its parent too, which is the root.
    Higher(Page),
}

/// What a write reads of the tree: the key's leaf, how the tree grows, and the place in the current undo page; no place
/// where a fresh one is needed.
#[derive(Clone, Copy, Debug)]
pub(crate) struct Reading {
    pub(crate) leaf: Stop,
    pub(crate) growth: Growth,
    pub(crate) place: Option<Link>,
}

/// Reads what a write of a key needs; none where the pages are no tree.
pub(crate) fn reading_for<P: Pager>(
    pager: &mut P,
    key: u32,
    undo_page: Option<u16>,
) -> Result<Option<Reading>, NotYet>
    requires { IfSome undo_page (λ u. u < 4096) }
    ensures asks { Asks P.handed P.waits P.last P.follows P.withholds (IsRead key undo_page) 4 pager.old pager.new result }
    ensures sound { IfOk result (λ found. IfSome found IsSound) }
    ensures reading { IfOk result (λ found. (pages : PageMap) → Extends pages (P.handed pager.new) → HasUndo pages undo_page → (height : ℕ) → IsTree pages height → IsSome found × IfSome found (IsReading pages height key undo_page)) }
{
    let path = match path_to(pager, key) {
        Ok(Some(path)) => path,
        Ok(None) => return Ok(None),
        Err(wait) => return Err(wait),
    };
    match place_in(pager, undo_page) {
        Ok(place) => Ok(Some(Reading {
            leaf: path.leaf,
            growth: growth_for(&path, key),
            place,
        })),
        Err(wait) => Err(wait),
    }
}

/// How the tree grows for a key's row at the end of its path.
fn growth_for(path: &Path, key: u32) -> Growth
    requires leaf { IsPage path.now.leaf.page × (path.now.leaf.page.kind ≡ Leaf) }
    requires parent { IfSome path.now.parent (λ stop. IsPage stop.page × (stop.page.kind ≡ Inner)) }
    ensures split { CanSplit path.now.leaf.page result }
    ensures pages { (pages : PageMap) → IfSome path.now.parent (λ stop. pages stop.number ≡ stop.page) → HasPages pages result }
    ensures growth { (pages : PageMap) (height : ℕ) → IsTree pages height → path.now ≡ path_on pages height key → shape_of result ≡ growth_of pages height key }
{
    if has_place(&path.leaf.page, key) {
        return Growth::Stays;
    }
    match &path.parent {
        Some(parent) => growth_under(parent),
        None => Growth::NewRoot,
    }
}

/// How the tree grows where a full leaf has this parent.
fn growth_under(parent: &Stop) -> Growth
    requires page { IsPage parent.now.page }
    requires kind { parent.now.page.kind ≡ Inner }
    ensures { result ≡ growth_under parent.now }
{
    if parent.page.count() < 124 {
        Growth::Leaf(parent.number)
    } else if parent.number == 1 {
        Growth::Higher(parent.page)
    } else {
        Growth::Inner(*parent)
    }
}

/// The place of the next record in the current undo page; none where there is no such page or no place.
fn place_in<P: Pager>(pager: &mut P, undo_page: Option<u16>) -> Result<Option<Link>, NotYet>
    requires { IfSome undo_page (λ u. u < 4096) }
    ensures asks { Asks P.handed P.waits P.last P.follows P.withholds (λ pages n. undo_page ≡ Some n) 1 pager.old pager.new result }
    ensures place { IfOk result (λ place. (pages : PageMap) → Extends pages (P.handed pager.new) → HasUndo pages undo_page → place ≡ undo_place pages undo_page) }
{
    let Some(number) = undo_page else {
        return Ok(None);
    };
    match pager.page(number) {
        Ok(page) => Ok(place_on(number, page)),
        Err(wait) => Err(wait),
    }
}

fn place_on(number: u16, page: &Page) -> Option<Link>
    ensures { page.now.kind ≡ Undo → result ≡ (if nat_lt (length page.now.rows) 15 then Some (record { page = number; index = length page.now.rows }) else None) }
{
    match page.kind() {
        Kind::Undo => place_of(number, page.count()),
        Kind::Blank | Kind::Meta | Kind::Leaf | Kind::Inner => None,
    }
}

fn place_of(number: u16, count: u16) -> Option<Link>
    ensures { result ≡ (if nat_lt count 15 then Some (record { page = number; index = count }) else None) }
{
    if count < 15 {
        Some(Link {
            page: number,
            index: count as u8,
        })
    } else {
        None
    }
}
