//! What holds of all plans.

ghost use Rattle.std.specs.Prelude.{◌≡◌, ℕ, ◌<◌, ◌≤◌, ◌↔◌, Bool, [], ◌∷◌, IsTrue};
ghost use Rattle.mp_cells.specs.declared.changes.Change.TheVariants.{RestoreRow, PutRow, PutUndo, TakePage};
ghost use Rattle.mp_cells.specs.declared.kinds.Kind.TheVariants.{Leaf};
ghost use Rattle.mp_cells.specs.declared.rows.Row.{Row};
ghost use Rattle.mp_cells.specs.Rows.{IsRow};
ghost use Rattle.mp_cells.specs.Changes.{holds_row};
ghost use Rattle.mp_cells.specs.Trees.{PageMap, IsTree};
ghost use Rattle.mp_cells.specs.Plans.{Plan, Meets, after_plan, of_page, after_changes, MeetsAll};
ghost use Rattle.mp_cells.specs.Writes.{WellPut, WellRestore};
ghost use Rattle.mp_plans.specs.Growth.{Growth, write_plan};
ghost use Rattle.mp_cells.specs.SmallMaps.{fresh_map, gone_row};
ghost use Rattle.mp_plans.specs.Fitting.{WriteFits};
ghost use Rattle.mp_plans.specs.FirstPut.{first_row, first_put};

/// What a plan leaves of a page is what that page's own changes leave of it, and a plan's changes can be applied in order
/// exactly where each page's own can. So changes of different pages may be reordered.
pub fn law_plan_by_page()
    ensures page { (plan : Plan) (pages : PageMap) (n : ℕ) → after_plan plan pages n ≡ after_changes (of_page n plan) (pages n) }
    ensures meets { (plan : Plan) (pages : PageMap) → Meets plan pages ↔ ((n : ℕ) → MeetsAll (of_page n plan) (pages n)) }
{}

/// A tree has at most three levels: with four, and the least fill, it would use more pages than there are.
pub fn law_three_levels()
    ensures { (pages : PageMap) (height : ℕ) → IsTree pages height → height ≤ 2 }
{}

/// One change puts a row back, whatever tree it is that has this leaf, which holds the key.
pub fn law_restore()
    ensures { (given : PageMap) (page : ℕ) (row : Row) → page < 4096 → (given page).kind ≡ Leaf → IsTrue (holds_row row.key (given page)) → IsRow row → WellRestore given row ((page, RestoreRow row) ∷ []) }
{}

/// The plan of a write puts the row, whatever tree it is that has the pages that the plan changes: each change can be
/// applied when it comes, and leaves a tree whose rows are the same but for the key's; the former version is the one new
/// undo record, and the row's link names it.
pub fn law_write()
    ensures { (given : PageMap) (growth : Growth) (m : ℕ) (fresh : Bool) (u a b c : ℕ) (row : Row) → WriteFits given growth m fresh u a b c row → WellPut given row (write_plan growth m fresh u given a b c row) }
{}

/// Over a fresh map the four changes of a first put are well made: an undo page is taken and made, the former version
/// becomes its first record, and the row, whose link names that record, is put. The same changes with a link to the record
/// behind, or with another former version, are not; nor is a plan without changes, one that puts a row twice, one that
/// keeps a former version twice, or one that takes six pages.
pub fn law_well_put_examples()
    ensures first { WellPut fresh_map (first_row 0) (first_put (gone_row 7) (first_row 0)) }
    ensures behind { WellPut fresh_map (first_row 1) (first_put (gone_row 7) (first_row 1)) → ⊥ }
    ensures former { WellPut fresh_map (first_row 0) (first_put (gone_row 8) (first_row 0)) → ⊥ }
    ensures empty { (given : PageMap) (row : Row) → WellPut given row [] → ⊥ }
    ensures twice { (given : PageMap) (row : Row) (m : ℕ) → WellPut given row ((m, PutRow row) ∷ (m, PutRow row) ∷ []) → ⊥ }
    ensures kept { (given : PageMap) (row former : Row) (u m : ℕ) → WellPut given row ((u, PutUndo former) ∷ (u, PutUndo former) ∷ (m, PutRow row) ∷ []) → ⊥ }
    ensures taken { (given : PageMap) (row : Row) (plan : Plan) (a b c d e f : ℕ) → WellPut given row ((0, TakePage a) ∷ (0, TakePage b) ∷ (0, TakePage c) ∷ (0, TakePage d) ∷ (0, TakePage e) ∷ (0, TakePage f) ∷ plan) → ⊥ }
{}
