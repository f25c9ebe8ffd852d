//! The plan that puts a row back.

ghost use Rattle.std.specs.Prelude.{◌≡◌, ℕ, [], IsSome, OnOk, OnErr};
ghost use Rattle.mp_cells.specs.Rows.{IsRow};
ghost use Rattle.mp_cells.specs.Trees.{PageMap, IsTree, tree_rows, row_at};
ghost use Rattle.mp_page.specs.Pagers.{Extends};
ghost use Rattle.mp_cells.specs.Writes.{WellRestore};
ghost use Rattle.mp_tree.specs.Searches.{Asks, IsOnPath};

use crate::leaf::holds_key;
use crate::plan::Plan;
use crate::search::path_to;
use mp_model::NotYet;
use mp_page::{Change, Pager, Row};

/// The one change that puts a former version of a key's row back into the tree, which holds the key. Where the pages are
/// no tree, or one without the key, the plan means nothing. It asks only for pages on the key's path, at most three. `NotYet`
/// is the pager's answer, for one of these, and leaves the plan empty; what was handed out stays. It takes no memory.
pub fn plan_restore<P: Pager>(pager: &mut P, former: &Row, plan: &mut Plan) -> Result<(), NotYet>
    requires { IsRow former.now }
    ensures asks { Asks P.handed P.waits P.last P.follows P.withholds (IsOnPath former.now.key) 3 pager.old pager.new result }
    ensures plan { OnOk result ((given : PageMap) → Extends given (P.handed pager.new) → (height : ℕ) → IsTree given height → IsSome (row_at former.now.key (tree_rows given height)) → WellRestore given former.now plan.new) }
    ensures refused { OnErr result (plan.new ≡ []) }
{
    plan.clear();
    match path_to(pager, former.key) {
        Ok(Some(path)) => {
            if holds_key(&path.leaf.page, former.key) {
                plan.put(path.leaf.number, Change::RestoreRow { row: *former });
            }
            Ok(())
        }
        Ok(None) => Ok(()),
        Err(wait) => Err(wait),
    }
}
