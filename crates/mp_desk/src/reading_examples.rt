//! What statements look at and find, and what they don't, on small cases, as the contracts of functions that do nothing.
ghost use Rattle.std.specs.Prelude.{◌≡◌, ℕ, [], ◌∷◌, None, Some};
ghost use Rattle.mp_model.specs.declared.waiting.NotYet.{NotYet};
ghost use Rattle.mp_cells.specs.Trees.{top};
ghost use Rattle.mp_cells.specs.SmallMaps.{fresh_map};
ghost use Rattle.mp_core_trx.specs.Parts.{trx, begun_of};
ghost use Rattle.mp_core_pages.specs.PageParts.{given_page};
ghost use Rattle.mp_shared.specs.Nodes.{Run, NodeView, Reached};
ghost use Rattle.mp_shared.specs.SmallNodes.{node_of_first};
ghost use Rattle.mp_supports.specs.SmallParts.{own_trx, younger_trx, part_before_steps, small_part, open_part, version_by, commit_mtr, made_at_four, forced_to};
ghost use Rattle.mp_desk.specs.declared.desk.Desk.{Desk};
ghost use Rattle.mp_desk.specs.declared.halts.ReadHalt.TheVariants as halts;
ghost use Rattle.mp_desk.specs.declared.reading.Sight.TheVariants as sights;
ghost use Rattle.mp_desk.specs.Desks.{MissesHere};
ghost use Rattle.mp_desk.specs.Statements.{StaysQuiet, MakesThen, IsReader, ReadsIn, LooksOn, HasBegunWriter, KnowsView, IsInPrep, IsSight, IsNewestIn, ShowsSince, RowsSince, LeadsPast, IsPreparing, FindsValue, FindsRows, FindsStretch};
ghost use Rattle.mp_desk.specs.ReadHalts.{HaltsRead, HaltsScan};
ghost use Rattle.mp_desk.specs.SmallDesks.{least_wait, unwritten_row, younger_row, leaf_part, preparing_part, blocked_part};

/// More that is durable is quiet, a transaction that was begun isn't. A statement makes its mtr, and none is not one. A
/// transaction that is begun and ACTIVE goes on, one of another primary or one that isn't stored yet doesn't. A look leaves
/// the undo page. A row without a writer has no writer to begin, and no transaction has version 0. A part knows a view of 0,
/// and not one that it never saw. A writer whose slot shows PREP prepares, one that shows ACTIVE doesn't.
pub fn law_reading_examples()
    ensures quiet { StaysQuiet (small_part [] [] []) (forced_to 2 (small_part [] [] [])) }
    ensures not_quiet { ¬ StaysQuiet part_before_steps open_part }
    ensures makes { MakesThen record { at = 4; mtr = commit_mtr 1 } (small_part [] [] []) (small_part [] [] (made_at_four (commit_mtr 1))) }
    ensures makes_none { ¬ MakesThen record { at = 4; mtr = commit_mtr 1 } (small_part [] [] []) (small_part [] [] []) }
    ensures reader { IsReader 1 (begun_of own_trx 3) open_part }
    ensures another_reader { ¬ IsReader 1 (begun_of younger_trx 3) open_part }
    ensures reads { (run : Run) → ReadsIn 1 (begun_of own_trx 3) (node_of_first run open_part) }
    ensures not_yet_active { (run : Run) → ¬ ReadsIn 1 (begun_of own_trx 3) (node_of_first run (small_part [] [] [])) }
    ensures looks { (p : ℕ) (desk : Desk) (n : NodeView) → LooksOn p desk desk n n }
    ensures another_undo_page { (p : ℕ) (desk : Desk) (n : NodeView)
        → ¬ LooksOn p (record desk { undo = None }) (record desk { undo = Some 2 }) n n }
    ensures no_writer { (n : NodeView) → HasBegunWriter n unwritten_row }
    ensures never_begun { (n : NodeView) → Reached n → ¬ HasBegunWriter n (version_by (Some (trx 1 0 0)) None 97) }
    ensures knows { KnowsView part_before_steps (begun_of own_trx 0) }
    ensures never_saw { ¬ KnowsView part_before_steps (begun_of own_trx 3) }
    ensures in_prep { IsInPrep preparing_part own_trx younger_row younger_trx }
    ensures not_in_prep { ¬ IsInPrep blocked_part own_trx younger_row younger_trx }
{}

/// A version without a writer is seen, and isn't hidden. What a leaf shows was given to the part: where it was given no page,
/// it shows no newest version, no rows and no value. Past versions that are hidden a reader comes to an older one, and not
/// past one that it sees. A scan of no rows finds none; it finds no more than were asked for, and keeps what it had. A read
/// halts at a writer that prepares, and for a page's words, and never for a least view.
pub fn law_finding_rows_examples()
    ensures seen { IsSight part_before_steps own_trx 3 unwritten_row sights.Seen }
    ensures not_hidden { ¬ IsSight part_before_steps own_trx 3 unwritten_row sights.Hidden }
    ensures newest { (run : Run) → IsNewestIn 1 (node_of_first run blocked_part) 5 younger_row }
    ensures no_newest { (run : Run) → ¬ IsNewestIn 1 (node_of_first run part_before_steps) 5 younger_row }
    ensures shows { ShowsSince part_before_steps blocked_part 5 younger_row }
    ensures shows_none { ¬ ShowsSince part_before_steps part_before_steps 5 younger_row }
    ensures rows { RowsSince part_before_steps (small_part [] (given_page 1 (fresh_map 1) 3 2 ∷ []) []) 0 record { rows = []; next = top } }
    ensures no_rows { ¬ RowsSince part_before_steps part_before_steps 0 record { rows = []; next = top } }
    ensures leads { LeadsPast part_before_steps own_trx 3 unwritten_row [] unwritten_row }
    ensures not_past { ¬ LeadsPast part_before_steps own_trx 3 unwritten_row (version_by None None 98 ∷ []) (version_by None None 98) }
    ensures preparing { IsPreparing preparing_part own_trx 3 5 younger_trx }
    ensures not_preparing { ¬ IsPreparing part_before_steps own_trx 3 5 younger_trx }
    ensures value { FindsValue part_before_steps leaf_part (begun_of own_trx 3) 5 (Some (97 ∷ [])) }
    ensures no_value { ¬ FindsValue part_before_steps part_before_steps (begun_of own_trx 3) 5 None }
    ensures none_asked { FindsRows part_before_steps part_before_steps (begun_of own_trx 3) 0 0 [] }
    ensures not_more { ¬ FindsRows part_before_steps part_before_steps (begun_of own_trx 3) 0 0 (record { key = 5; value = 97 ∷ [] } ∷ []) }
    ensures stretch { FindsStretch part_before_steps leaf_part (begun_of own_trx 3) 0 top [] (record { key = 5; value = 97 ∷ [] } ∷ []) }
    ensures keeps { ¬ FindsStretch part_before_steps leaf_part (begun_of own_trx 3) 0 top (record { key = 5; value = 97 ∷ [] } ∷ []) [] }
    ensures halts { (run : Run) (before : NodeView)
        → HaltsRead 1 (begun_of own_trx 3) 5 before (node_of_first run preparing_part) (halts.Prep younger_trx) }
    ensures not_for_a_view { (p : ℕ) (before after : NodeView) → ¬ HaltsRead p (begun_of own_trx 3) 5 before after (halts.Word least_wait) }
    ensures halts_scan { (p : ℕ) (before after : NodeView) (wait : NotYet) → MissesHere p before after wait
        → HaltsScan p (begun_of own_trx 3) before after (halts.Word wait) }
    ensures not_in_an_empty_part { (run : Run) (before : NodeView)
        → ¬ HaltsScan 1 (begun_of own_trx 3) before (node_of_first run part_before_steps) (halts.Prep younger_trx) }
{}
