//! What holds of the mtrs that log plans.

ghost use Rattle.std.specs.Prelude.{◌≡◌, ℕ, ◌≤◌, Option, length};
ghost use Rattle.mp_cells.specs.declared.records.Mtr.{Mtr};
ghost use Rattle.mp_cells.specs.declared.rows.Row.{Row};
ghost use Rattle.mp_cells.specs.Mtrs.{IsMtr};
ghost use Rattle.mp_cells.specs.Trees.{PageMap};
ghost use Rattle.mp_cells.specs.Plans.{Plan, plan_of};
ghost use Rattle.mp_cells.specs.Writes.{WellRestore};
ghost use Rattle.mp_redo.specs.Spelling.{mtr_bytes};
ghost use Rattle.mp_tree.specs.declared.write.PlanKind.{PlanKind};
ghost use Rattle.mp_tree.specs.declared.write.Write.{Write};
ghost use Rattle.mp_tree.specs.Writing.{IsWrite};

/// An mtr whose changes are the plan of a write has at most 4,096 bytes in a log, and one that puts a row back has 85.
pub fn law_plan_size()
    ensures write { (given : PageMap) (height : ℕ) (write : Write) (undo_page : Option ℕ) (kind : PlanKind) (plan : Plan) (mtr : Mtr)
        → IsWrite given height write undo_page kind plan → IsMtr mtr → plan_of mtr.records ≡ plan → length (mtr_bytes mtr) ≤ 4096 }
    ensures restore { (given : PageMap) (row : Row) (plan : Plan) (mtr : Mtr)
        → WellRestore given row plan → IsMtr mtr → plan_of mtr.records ≡ plan → length (mtr_bytes mtr) ≡ 85 }
{}
