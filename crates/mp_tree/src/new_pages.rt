//! The pages that a write takes.

ghost use Rattle.std.specs.Prelude.{◌≡◌, ℕ, ◌+◌, ◌<◌, ◌≤◌, length, nat_lt, is_none, IsSome, IfOk, IfErr, IfSome, if◌then◌else◌};
ghost use Rattle.mp_cells.specs.declared.kinds.Kind.TheVariants.{Meta};
ghost use Rattle.mp_cells.specs.PageView.{IsPage};
ghost use Rattle.mp_cells.specs.Trees.{PageMap, one_if};
ghost use Rattle.mp_page.specs.Pagers.{Extends};
ghost use Rattle.mp_plans.specs.Growth.{pages_needed};
ghost use Rattle.mp_tree.specs.Planning.{shape_of, clear_pages};
ghost use Rattle.mp_tree.specs.Writing.{AsksPlan, IsFront, IsNew, HasNew, IsFullFor, IsFullBy, IsFullAnswer, needed_for};

use crate::clear::{count_clear, next_clear};
use crate::growth::{Growth, Reading};
use crate::write::PlanRefusal;
use mp_page::{Kind, Page, Pager};

/// The numbers of the pages that a write takes: an undo page, where a fresh one is needed, and up to three for the tree,
/// each the lowest that is clear behind those before it.
#[derive(Clone, Copy, Debug)]
pub(crate) struct New {
    pub(crate) undo: u16,
    pub(crate) first: u16,
    pub(crate) second: u16,
    pub(crate) third: u16,
}

impl New {
    /// Where no page is taken.
    const NONE: New = New {
        undo: 0,
        first: 0,
        second: 0,
        third: 0,
    };
}

/// The pages that a write takes. `Full` comes exactly where more are needed than are clear; none where page 0 isn't the
/// meta page.
pub(crate) fn pages_for<P: Pager>(
    pager: &mut P,
    reading: &Reading,
) -> Result<Option<New>, PlanRefusal>
    ensures asks { AsksPlan P.handed P.waits P.last P.follows P.withholds (λ pages n. n ≡ 0) 1 pager.old pager.new result }
    ensures new { IfOk result (λ found. (pages : PageMap) → Extends pages (P.handed pager.new) → (pages 0).kind ≡ Meta → IsSome found × IfSome found (HasNew pages (is_none reading.now.place) (shape_of reading.now.growth))) }
    ensures full { IfErr result (λ refusal. (pages : PageMap) → Extends pages (P.handed pager.new) → IsFullFor pages (needed_for (is_none reading.now.place) (shape_of reading.now.growth)) refusal) }
    ensures by { IfErr result (λ refusal. IsFullBy (P.handed pager.new) refusal) }
    ensures unread { needed_for (is_none reading.now.place) (shape_of reading.now.growth) ≡ 0 → P.handed pager.new 0 ≡ P.handed pager.old 0 }
{
    let fresh = is_fresh(reading);
    let needed = needed(&reading.growth, fresh);
    if needed == 0 {
        return Ok(Some(New::NONE));
    }
    match pager.page(0) {
        Ok(meta) => taken_from(meta, fresh, needed),
        Err(wait) => Err(PlanRefusal::NotYet(wait)),
    }
}

/// Whether a fresh undo page is needed.
pub(crate) fn is_fresh(reading: &Reading) -> bool
    ensures { result ≡ is_none reading.now.place }
{
    match reading.place {
        None => true,
        Some(_) => false,
    }
}

/// How many pages a write takes.
fn needed(growth: &Growth, fresh: bool) -> u32
    ensures value { result ≡ needed_for fresh (shape_of growth.now) }
    ensures most { result ≤ 4 }
{
    u32::from(fresh) + needed_to_grow(growth)
}

fn needed_to_grow(growth: &Growth) -> u32
    ensures value { result ≡ pages_needed (shape_of growth.now) }
    ensures most { result ≤ 3 }
{
    match growth {
        Growth::Stays => 0,
        Growth::NewRoot => 2,
        Growth::Leaf(_) => 1,
        Growth::Inner(_) => 2,
        Growth::Higher(_) => 3,
    }
}

/// So many pages, by the bits of the meta page.
fn taken_from(meta: &Page, fresh: bool, needed: u32) -> Result<Option<New>, PlanRefusal>
    ensures new { IfOk result (λ found. meta.now.kind ≡ Meta → IsSome found × IfSome found (λ new. (needed ≤ length (clear_pages meta.now)) × IsNew fresh new meta.now)) }
    ensures full { IfErr result (λ refusal. IsFullFor (λ n. meta.now) needed refusal) }
    ensures quiet { IfErr result (λ refusal. IsFullAnswer refusal) }
{
    match meta.kind() {
        Kind::Meta => {
            let clear = count_clear(meta);
            if clear < needed {
                return Err(PlanRefusal::Full { needed, clear });
            }
            Ok(Some(new_pages(meta, fresh)))
        }
        Kind::Blank | Kind::Leaf | Kind::Inner | Kind::Undo => Ok(None),
    }
}

/// The lowest clear pages.
fn new_pages(meta: &Page, fresh: bool) -> New
    requires page { IsPage meta.now }
    requires kind { meta.now.kind ≡ Meta }
    ensures { IsNew fresh result meta.now }
{
    if fresh {
        let undo = next_clear(meta, 0);
        new_behind(meta, undo, behind(undo))
    } else {
        new_behind(meta, 0, 0)
    }
}

/// The lowest clear pages from one on, beside an undo page.
fn new_behind(meta: &Page, undo: u16, from: u16) -> New
    requires page { IsPage meta.now }
    requires kind { meta.now.kind ≡ Meta }
    requires from { from ≤ 4096 }
    ensures undo { result.undo ≡ undo }
    ensures front { IsFront from result meta.now.bits }
{
    let first = next_clear(meta, from);
    let second = next_clear(meta, behind(first));
    let third = next_clear(meta, behind(second));
    New {
        undo,
        first,
        second,
        third,
    }
}

/// The page behind one, up to 4,096.
fn behind(page: u16) -> u16
    requires { page ≤ 4096 }
    ensures value { result ≡ (if nat_lt page 4096 then page + 1 else page) }
    ensures most { result ≤ 4096 }
{
    if page < 4096 { page + 1 } else { page }
}
