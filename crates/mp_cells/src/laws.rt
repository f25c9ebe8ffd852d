//! What holds of all pages, rows, changes and plans.

ghost use Rattle.std.specs.Prelude.{◌≡◌, ℕ, ◌<◌, ◌==◌, ◌∷◌, [], Bool, true, false, List, slice_get, Some, IsTrue, if◌then◌else◌};
ghost use Rattle.std.specs.Option.{option_map};
ghost use Rattle.mp_cells.specs.declared.changes.Change.{Change};
ghost use Rattle.mp_cells.specs.declared.records.Mtr.{Mtr};
ghost use Rattle.mp_cells.specs.declared.records.Record.TheVariants as records;
ghost use Rattle.mp_cells.specs.declared.rows.Link.{Link};
ghost use Rattle.mp_cells.specs.declared.rows.Row.{Row};
ghost use Rattle.mp_cells.specs.Keys.{with_cell};
ghost use Rattle.mp_cells.specs.PageView.{PageView, AreBits, SameContent, bit_of, with_bit, without_bit};
ghost use Rattle.mp_cells.specs.Changes.{applied, HasCells};
ghost use Rattle.mp_cells.specs.Mtrs.{IsChange};
ghost use Rattle.mp_cells.specs.Trees.{PageMap, row_at};
ghost use Rattle.mp_cells.specs.Plans.{Plan, after_plan, of_page, touches, plan_of, AgreesOn};
ghost use Rattle.mp_cells.specs.Writes.{same_link, undo_at, AddsUndo};
ghost use Rattle.mp_cells.specs.PageMaps.{page_at, after_mtr, after_records, HavePrevs};
ghost use Rattle.mp_cells.specs.SmallMaps.{fresh_map};
ghost use Rattle.mp_cells.specs.Orders.{sorted_by};

/// Setting or clearing the bit of a page changes no other bit of the 4,096.
pub fn law_bits()
    ensures set { (bits : List ℕ) (page n : ℕ) → AreBits bits → page < 4096 → bit_of (with_bit bits page) n ≡ (if n == page then 1 else bit_of bits n) }
    ensures cleared { (bits : List ℕ) (page n : ℕ) → AreBits bits → page < 4096 → bit_of (without_bit bits page) n ≡ (if n == page then 0 else bit_of bits n) }
    ensures kept { (bits : List ℕ) (page : ℕ) → AreBits bits → page < 4096 → AreBits (without_bit bits page) }
{}

/// The cells of a change that a record may have are of rows and children that a page may keep.
pub fn law_change_cells()
    ensures { (change : Change) → IsChange change → HasCells change }
{}

/// Whether a change can be applied and what it makes of a page doesn't depend on the page's LLSN, and the LLSN stays.
pub fn law_changes_and_llsns()
    ensures same { (change : Change) (page : PageView) (llsn : ℕ) → applied change (record page { llsn = llsn }) ≡ option_map (λ (new : PageView). record new { llsn = llsn }) (applied change page) }
    ensures stays { (change : Change) (page new : PageView) → applied change page ≡ Some new → new.llsn ≡ page.llsn }
{}

/// After an mtr each page has the content that the mtr's changes leave, and, where the mtr changes it, the mtr's LLSN;
/// that is what its records leave one after another.
pub fn law_mtrs()
    ensures content { (mtr : Mtr) (pages : PageMap) (n : ℕ) → SameContent (after_plan (plan_of mtr.records) pages n) (after_mtr mtr pages n) }
    ensures touched { (mtr : Mtr) (pages : PageMap) (n : ℕ) → IsTrue (touches n (plan_of mtr.records)) → (after_mtr mtr pages n).llsn ≡ mtr.llsn }
    ensures untouched { (mtr : Mtr) (pages : PageMap) (n : ℕ) → touches n (plan_of mtr.records) ≡ false → after_mtr mtr pages n ≡ pages n }
    ensures by_records { (mtr : Mtr) (pages : PageMap) (n : ℕ) → after_records mtr.llsn mtr.records pages n ≡ after_mtr mtr pages n }
{}

/// Two records of one page in one mtr: the second one's `prev` is the mtr's LLSN, and not the page's LLSN from before.
pub fn law_prev_examples()
    ensures own { (first second : Change) → HavePrevs 5 (records.Page 1 0 first ∷ records.Page 1 5 second ∷ []) fresh_map }
    ensures former { (first second : Change) → HavePrevs 5 (records.Page 1 0 first ∷ records.Page 1 0 second ∷ []) fresh_map → ⊥ }
{}

/// A list of pages is a map of the pages at their places, and of blank pages behind the last.
pub fn law_page_lists()
    ensures there { (pages : List PageView) (n : ℕ) (page : PageView) → slice_get pages n ≡ Some page → page_at pages n ≡ page }
    ensures fresh { (n : ℕ) → page_at (fresh_map 0 ∷ fresh_map 1 ∷ []) n ≡ fresh_map n }
{}

/// After a row is put its key has this row, and the other keys theirs, in whatever order the rows are.
pub fn law_rows_put()
    ensures { (key : ℕ) (row : Row) (rows : List Row) → row_at key (with_cell (λ r. r.key) row rows) ≡ (if row.key == key then Some row else row_at key rows) }
{}

/// Links that name one place are equal. Where undo records get one more, each that was there is there still.
pub fn law_links()
    ensures equal { (a b : Link) → IsTrue (same_link a b) → a ≡ b }
    ensures itself { (a : Link) → IsTrue (same_link a a) }
    ensures new { (old new : PageMap) (link : Link) (row : Row) → AddsUndo old new link row → undo_at new link ≡ Some row }
    ensures stays { (old new : PageMap) (link other : Link) (row former : Row) → AddsUndo old new link row → undo_at old other ≡ Some former → undo_at new other ≡ Some former }
{}

/// A page that no step of a plan changes has no changes in it. Maps agree on a plan where they have the same pages that it
/// changes; so each agrees with itself, and agreement goes on from map to map.
pub fn law_plans()
    ensures untouched { (plan : Plan) (n : ℕ) → touches n plan ≡ false → of_page n plan ≡ [] }
    ensures agrees { (plan : Plan) (given pages : PageMap) → ((n : ℕ) → IsTrue (touches n plan) → pages n ≡ given n) → AgreesOn plan given pages }
    ensures agreed { (plan : Plan) (given pages : PageMap) (n : ℕ) → AgreesOn plan given pages → IsTrue (touches n plan) → pages n ≡ given n }
    ensures reflexive { (plan : Plan) (pages : PageMap) → AgreesOn plan pages pages }
    ensures transitive { (plan : Plan) (a b c : PageMap) → AgreesOn plan a b → AgreesOn plan b c → AgreesOn plan a c }
{}

/// Sorting puts lower numbers first and keeps the order of equal ones.
pub fn law_sorted_examples()
    ensures sorted { sorted_by (λ (x : ℕ × ℕ). x.0) ((2, 1) ∷ (1, 7) ∷ (2, 0) ∷ (0, 9) ∷ []) ≡ (0, 9) ∷ (1, 7) ∷ (2, 1) ∷ (2, 0) ∷ [] }
    ensures equal_kept { sorted_by (λ (x : ℕ × ℕ). x.0) ((2, 1) ∷ (2, 0) ∷ []) ≡ (2, 0) ∷ (2, 1) ∷ [] → ⊥ }
{}
