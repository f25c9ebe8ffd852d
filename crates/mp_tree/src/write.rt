//! The plan of a write.

ghost use Rattle.std.specs.Prelude.{◌≡◌, ℕ, ◌<◌, ◌≤◌, [], is_none, IsTrue, IfOk, IfErr, IfSome, OnErr};
ghost use Rattle.mp_cells.specs.Rows.{is_writer};
ghost use Rattle.mp_cells.specs.Trees.{PageMap, IsTree};
ghost use Rattle.mp_page.specs.Pagers.{Extends};
ghost use Rattle.mp_plans.specs.Growth.{growth_of};
ghost use Rattle.mp_tree.specs.Planning.{shape_of, HasUndo, undo_place};
ghost use Rattle.mp_tree.specs.Writing.{AsksPlan, IsFullFor, IsFullBy, IsReadOrMeta, IsWrite, kind_of, needed_for};

use crate::changes::put_write;
use crate::growth::{Growth, reading_for};
use crate::new_pages::pages_for;
use crate::plan::Plan;
use mp_model::{NotYet, TrxId, Value};
use mp_page::Pager;

/// What a transaction writes: the key's new value, or none where the row is to be gone, and its id.
#[derive(Clone, Copy, Debug)]
pub struct Write {
    pub key: u32,
    pub value: Option<Value>,
    pub writer: TrxId,
}

/// How a plan changes the tree's shape.
#[derive(Clone, Copy, Debug, PartialEq, Eq)]
pub enum PlanKind {
    /// No page is split.
    InPlace,
    /// A leaf is split, and maybe its parent.
    Split,
    /// The root is split.
    RootSplit,
}

/// Why there is no plan.
#[derive(Clone, Copy, Debug, PartialEq, Eq)]
pub enum PlanRefusal {
    /// More pages are needed than are clear.
    Full { needed: u32, clear: u32 },
    /// The pager's answer.
    NotYet(NotYet),
}

/// The changes of a write: the new pages are taken, each the lowest that is clear; a fresh undo page is made where the
/// current one (2 to 4,095), if there is one, has 15 records; full pages on the way are split; the former version becomes
/// an undo record, and the key's row is the new one, whose link names that record. Where the pages are no tree, or the
/// current undo page is none, the plan means nothing.
///
/// It asks only for pages on the key's path, the current undo page and page 0, at most five, and for page 0 only where
/// pages are needed. `Full` comes exactly where more pages are needed (at most 4) than are clear, after page 0 was read, and
/// says both numbers. `NotYet` is the pager's answer, for one of these pages. Either leaves the plan empty; what was handed
/// out stays. It takes no memory.
pub fn plan_write<P: Pager>(
    pager: &mut P,
    write: &Write,
    undo_page: Option<u16>,
    plan: &mut Plan,
) -> Result<PlanKind, PlanRefusal>
    requires writer { IsTrue (is_writer write.now.writer) }
    requires undo { IfSome undo_page (λ u. (2 ≤ u) × (u < 4096)) }
    ensures asks { AsksPlan P.handed P.waits P.last P.follows P.withholds (IsReadOrMeta write.now.key undo_page) 5 pager.old pager.new result }
    ensures written { IfOk result (λ kind. (given : PageMap) → Extends given (P.handed pager.new) → HasUndo given undo_page → (height : ℕ) → IsTree given height → IsWrite given height write.now undo_page kind plan.new) }
    ensures full { IfErr result (λ refusal. (given : PageMap) → Extends given (P.handed pager.new) → HasUndo given undo_page → (height : ℕ) → IsTree given height → IsFullFor given (needed_for (is_none (undo_place given undo_page)) (growth_of given height write.now.key)) refusal) }
    ensures by { IfErr result (λ refusal. IsFullBy (P.handed pager.new) refusal) }
    ensures unread { (given : PageMap) → Extends given (P.handed pager.new) → HasUndo given undo_page → (height : ℕ) → IsTree given height → needed_for (is_none (undo_place given undo_page)) (growth_of given height write.now.key) ≡ 0 → P.handed pager.new 0 ≡ P.handed pager.old 0 }
    ensures refused { OnErr result (plan.new ≡ []) }
{
    plan.clear();
    let reading = match reading_for(pager, write.key, undo_page) {
        Ok(Some(reading)) => reading,
        Ok(None) => return Ok(PlanKind::InPlace),
        Err(wait) => return Err(PlanRefusal::NotYet(wait)),
    };
    match pages_for(pager, &reading) {
        Ok(Some(new)) => {
            put_write(plan, &reading, &new, write);
            Ok(kind_of(&reading.growth))
        }
        Ok(None) => Ok(PlanKind::InPlace),
        Err(refusal) => Err(refusal),
    }
}

fn kind_of(growth: &Growth) -> PlanKind
    ensures { result ≡ kind_of (shape_of growth.now) }
{
    match growth {
        Growth::Stays => PlanKind::InPlace,
        Growth::Leaf(_) => PlanKind::Split,
        Growth::Inner(_) => PlanKind::Split,
        Growth::NewRoot => PlanKind::RootSplit,
        Growth::Higher(_) => PlanKind::RootSplit,
    }
}
