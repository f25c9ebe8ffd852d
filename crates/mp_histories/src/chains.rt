//! What a history of well-made mtrs leaves over clean pages: a tree, and a chain for each key.

ghost use Rattle.std.specs.Prelude.{◌≡◌, ◌≢◌, ℕ, ◌-◌, ◌≤◌, drop, List, [], ◌∷◌, ◌++◌, length, Option, Some, None};
ghost use Rattle.std.specs.List.{AllByRecursion};
ghost use Rattle.mp_model.specs.declared.ids.TrxId.{TrxId};
ghost use Rattle.mp_cells.specs.declared.records.Mtr.{Mtr};
ghost use Rattle.mp_cells.specs.declared.rows.Link.{Link};
ghost use Rattle.mp_cells.specs.declared.rows.Row.{Row};
ghost use Rattle.mp_cells.specs.Trees.{PageMap, IsClean};
ghost use Rattle.mp_cells.specs.Plans.{Plan, Meets, AgreesOn, plan_of};
ghost use Rattle.mp_cells.specs.Writes.{IsStep, undo_at, rows_put, rows_restored, WellPut, WellRestore};
ghost use Rattle.mp_histories.specs.KeyOps.{KeyOp, oldest_of, below_top, IsOwnRun};
ghost use Rattle.mp_histories.specs.Commits.{Stamp, HasStamp};
ghost use Rattle.mp_histories.specs.Histories.{History, older, pages_after, Version, by_version, rows_of_versions, ops_on, live_on};
ghost use Rattle.mp_histories.specs.Stamped.{OpsFit};
ghost use Rattle.mp_histories.specs.Chains.{UndoMap, row_over, LinksTo, IsChain, IsWalk, row_of_key, RunsFrom, HasChains, IsPutAt, PlacesFall, PutsVersion, PutsBack, LeavesKey, StaysNoted, CoversRows};

/// After well-made mtrs over clean pages the pages are a tree. Each key's row is the newest of its versions that stand,
/// or the opening's row, and these versions are its chain, down to the opening's row, which has no writer and no link.
/// Each version was put by the mtr at its place, and the places fall.
pub fn law_chains()
    ensures chains { (base : ℕ) (opening : PageMap) (made : History) → IsClean base opening → RunsFrom opening made → HasChains opening made }
    ensures places { (base : ℕ) (opening : PageMap) (made : History) (key : ℕ) → IsClean base opening → RunsFrom opening made → AllByRecursion (IsPutAt made key) (live_on key made) }
    ensures order { (base : ℕ) (opening : PageMap) (made : History) (key : ℕ) → IsClean base opening → RunsFrom opening made → PlacesFall (live_on key made) }
    ensures last_writer { (base : ℕ) (opening : PageMap) (key : ℕ) → IsClean base opening → (row_of_key opening key).writer ≡ None }
    ensures last_link { (base : ℕ) (opening : PageMap) (key : ℕ) → IsClean base opening → (row_of_key opening key).link ≡ None }
    ensures key { (pages : PageMap) (key : ℕ) → (row_of_key pages key).key ≡ key }
{}

/// Further well-made mtrs leave each undo record and each chain as it is. A row has one chain, and a walk down its
/// links sees the rows of the chain in order, up to the last.
pub fn law_chains_stay()
    ensures undo { (base : ℕ) (opening : PageMap) (newer made : History) (link : Link) (row : Row) → IsClean base opening → RunsFrom opening (newer ++ made) → undo_at (pages_after opening made) link ≡ Some row → undo_at (pages_after opening (newer ++ made)) link ≡ Some row }
    ensures chain { (base : ℕ) (opening : PageMap) (newer made : History) (rows : List Row) (last : Row) → IsClean base opening → RunsFrom opening (newer ++ made) → IsChain (undo_at (pages_after opening made)) rows last → IsChain (undo_at (pages_after opening (newer ++ made))) rows last }
    ensures one { (undo : UndoMap) (rows others : List Row) (last other : Row) → IsChain undo rows last → IsChain undo others other → row_over rows last ≡ row_over others other → rows ≡ others }
    ensures one_last { (undo : UndoMap) (rows others : List Row) (last other : Row) → IsChain undo rows last → IsChain undo others other → row_over rows last ≡ row_over others other → last ≡ other }
    ensures walk { (undo : UndoMap) (rows walked : List Row) (last : Row) → IsChain undo rows last → IsWalk undo (row_over rows last) walked → (rest : List Row) × (row_over rows last ∷ walked ++ rest ≡ rows ++ last ∷ []) }
{}

/// The row of a key that a leaf had after the first so many mtrs heads, under today's undo records, the chain of the
/// versions that stood then; and it does after each further mtr. The first mtrs are what is left without the newer ones,
/// and they stay the first.
pub fn law_noted()
    ensures noted { (base : ℕ) (opening : PageMap) (made : History) (height key : ℕ) → IsClean base opening → RunsFrom opening made → StaysNoted opening (older height made) made key (row_of_key (pages_after opening (older height made)) key) }
    ensures stays { (base : ℕ) (opening : PageMap) (noted now newer : History) (key : ℕ) (row : Row) → IsClean base opening → RunsFrom opening (newer ++ now) → StaysNoted opening noted now key row → StaysNoted opening noted (newer ++ now) key row }
    ensures first { (height : ℕ) (made : History) → (newer : History) × (made ≡ newer ++ older height made) }
    ensures count { (height : ℕ) (made : History) → height ≤ length made → length (older height made) ≡ height }
    ensures dropped { (height : ℕ) (made : History) → older height made ≡ drop (length made - height) made }
    ensures older_stays { (height : ℕ) (newer made : History) → height ≤ length made → older height (newer ++ made) ≡ older height made }
{}

/// A plan that puts a row, or puts one back, does so over any pages that have the contents of those that it changes.
pub fn law_contents()
    ensures put { (plan : Plan) (given other : PageMap) (row : Row) → AgreesOn plan given other → WellPut given row plan → WellPut other row plan }
    ensures restore { (plan : Plan) (given other : PageMap) (row : Row) → AgreesOn plan given other → WellRestore given row plan → WellRestore other row plan }
{}

/// One more well-made mtr leaves each key's puts over what they may cover, where the row that it puts comes over one
/// without a writer, or over one that its writer may cover.
pub fn law_step()
    ensures { (base : ℕ) (opening : PageMap) (made : History) (mtr : Mtr) (committed drew : List Stamp) (key : ℕ) → IsClean base opening → RunsFrom opening (mtr ∷ made) → CoversRows (HasStamp committed) (HasStamp drew) (pages_after opening made) mtr → OpsFit committed drew (ops_on key made) → OpsFit committed drew (ops_on key (mtr ∷ made)) }
{}

/// One more well-made mtr that puts a row makes it its key's newest version, linked to the row that it replaces; one
/// that puts a row back takes off the versions of the newest one's writer; and any other key stays as it is. So what a
/// history did to a key comes before what further mtrs do. Each change can be applied when it comes.
pub fn law_mtr_on_key()
    ensures puts { (base : ℕ) (opening : PageMap) (made : History) (mtr : Mtr) (row : Row) → IsClean base opening → RunsFrom opening (mtr ∷ made) → rows_put (plan_of mtr.records) ≡ row ∷ [] → PutsVersion opening made mtr row }
    ensures back { (base : ℕ) (opening : PageMap) (made : History) (mtr : Mtr) (row : Row) → IsClean base opening → RunsFrom opening (mtr ∷ made) → rows_restored (plan_of mtr.records) ≡ row ∷ [] → PutsBack opening made mtr row }
    ensures leaves { (base : ℕ) (opening : PageMap) (made : History) (mtr : Mtr) (key : ℕ) → IsClean base opening → RunsFrom opening (mtr ∷ made) → AllByRecursion (λ row. row.key ≢ key) (rows_put (plan_of mtr.records)) → AllByRecursion (λ row. row.key ≢ key) (rows_restored (plan_of mtr.records)) → LeavesKey opening made mtr key }
    ensures meets { (base : ℕ) (opening : PageMap) (made : History) (mtr : Mtr) → IsClean base opening → RunsFrom opening (mtr ∷ made) → Meets (plan_of mtr.records) (pages_after opening made) }
    ensures steps { (base : ℕ) (opening : PageMap) (made : History) (mtr : Mtr) → IsClean base opening → RunsFrom opening (mtr ∷ made) → AllByRecursion IsStep (plan_of mtr.records) }
    ensures before { (key : ℕ) (newer made : History) → (later : List (KeyOp Version)) × (ops_on key (newer ++ made) ≡ later ++ ops_on key made) }
{}

/// From its put on a row's link leads to the row that it replaced. So what a restore puts back, while a writer's puts
/// are the last operations on a key, is the row that the first of these puts replaced.
pub fn law_first_former()
    ensures link { (base : ℕ) (opening : PageMap) (newer made : History) (mtr : Mtr) (row : Row) → IsClean base opening → RunsFrom opening (newer ++ mtr ∷ made) → rows_put (plan_of mtr.records) ≡ row ∷ [] → LinksTo (undo_at (pages_after opening (newer ++ mtr ∷ made))) row (row_of_key (pages_after opening made) row.key) }
    ensures former { (base : ℕ) (opening : PageMap) (newer made : History) (mtr : Mtr) (row : Row) (writer : Option TrxId) (v : Version) → IsClean base opening → RunsFrom opening (newer ++ mtr ∷ made) → rows_put (plan_of mtr.records) ≡ row ∷ [] → (run : IsOwnRun by_version writer (ops_on row.key (newer ++ mtr ∷ made)) v) → (oldest_of v run.older).row ≡ row → row_of_key (pages_after opening made) row.key ≡ row_over (rows_of_versions (below_top by_version (live_on row.key (newer ++ mtr ∷ made)))) (row_of_key opening row.key) }
{}
