//! What making an mtr, forcing and letting go are, and what they are not, on small cases, as the contracts of functions
//! that do nothing.
ghost use Rattle.std.specs.Prelude.{◌≡◌, ◌<◌, ℕ, true, false, List, [], ◌∷◌, length, Some, None};
ghost use Rattle.mp_cells.specs.declared.changes.Change.TheVariants.{MakeUndo};
ghost use Rattle.mp_cells.specs.Plans.{plan_of};
ghost use Rattle.mp_core_pages.specs.declared.page_lock.Held.TheVariants.{Read};
ghost use Rattle.mp_core_pages.specs.Histories.{placed};
ghost use Rattle.mp_core_pages.specs.PageEvents.{with_mtr};
ghost use Rattle.mp_histories.specs.SmallHistory.{small_trx, small_put, small_restore};
ghost use Rattle.mp_log.specs.Logs.{most_batch_bytes};
ghost use Rattle.mp_facts.specs.SmallParts.{active_part, put_part, first_commit_mtr};
ghost use Rattle.mp_shared.specs.Nodes.{Run};
ghost use Rattle.mp_shared.specs.PageSteps.{with_pages};
ghost use Rattle.mp_shared.specs.SmallNodes.{node_of_first, holding_zero};
ghost use Rattle.mp_buffer_fusion.specs.PoolExamples.{blank_buffer};
ghost use Rattle.mp_desk.specs.Making.{llsn_in, records_of_plan, CanChangeBuffers, mtr_of_commit, MayPlan, IsMadeAfter, MakesMtr, HasSamePages, IsUndoAfter, IsOpenLog, AllForced, SomeForced};
ghost use Rattle.mp_desk.specs.LetGo.{OnlyGaveBack, IsAllDurable, HasLetGo};

/// A second record of a page tells the mtr's own LLSN. A page is made an undo page once. An mtr is new in its part, and
/// later than what its node knew. The undo page that is made is the current one.
pub fn law_making_examples()
    ensures records { records_of_plan 5 (λ _. 0) (plan_of small_put.records) ≡ small_put.records }
    ensures other_llsns { ¬ (records_of_plan 5 (λ _. 1) (plan_of small_put.records) ≡ small_put.records) }
    ensures llsn { llsn_in (blank_buffer 5 true ∷ []) 1 ≡ 5 }
    ensures no_llsn { llsn_in (blank_buffer 5 true ∷ []) 2 ≡ 0 }
    ensures can_change { CanChangeBuffers 5 (blank_buffer 0 true ∷ []) ((1, MakeUndo) ∷ []) }
    ensures not_twice { ¬ CanChangeBuffers 5 (blank_buffer 0 true ∷ []) ((1, MakeUndo) ∷ (1, MakeUndo) ∷ []) }
    ensures commit { mtr_of_commit 1 7 (small_trx 0) 5 ≡ first_commit_mtr }
    ensures no_other_llsn { ¬ (mtr_of_commit 1 8 (small_trx 0) 5 ≡ first_commit_mtr) }
    ensures may_plan { MayPlan active_part (plan_of small_put.records) }
    ensures no_empty_plan { ¬ MayPlan active_part [] }
    ensures makes { (run : Run)
        → MakesMtr 1 (placed 0 small_put) (node_of_first run active_part)
        (with_pages (node_of_first run active_part) 1 (with_mtr 0 small_put) 1) }
    ensures makes_none { (run : Run) → ¬ MakesMtr 1 (placed 0 small_put) (node_of_first run active_part) (node_of_first run active_part) }
    ensures later { (run : Run) → IsMadeAfter (node_of_first run put_part) (placed 1 small_restore) }
    ensures not_at_once { (run : Run) → ¬ IsMadeAfter (node_of_first run put_part) (placed 0 small_restore) }
    ensures same_pages { HasSamePages (blank_buffer 0 true ∷ []) (blank_buffer 5 false ∷ []) }
    ensures page_lost { ¬ HasSamePages (blank_buffer 0 true ∷ []) [] }
    ensures undo { IsUndoAfter ((1, MakeUndo) ∷ []) None (Some 1) }
    ensures undo_missed { ¬ IsUndoAfter ((1, MakeUndo) ∷ []) None None }
{}

/// A closed log takes no mtr, and none has more appended than a batch may have. A part without mtrs has all of them durable, one with an mtr that wasn't forced has not, and
/// forcing makes none. Who lets go holds no lock.
pub fn law_letting_go_examples()
    ensures open_log { IsOpenLog {D = ℕ} 1 5
        record { disk = 0; tail = record { node = 1; place = 0; last = 5; live = true; bytes = [] }; llsns = [] } }
    ensures closed_log { ¬ IsOpenLog {D = ℕ} 1 5
        record { disk = 0; tail = record { node = 1; place = 0; last = 5; live = false; bytes = [] }; llsns = [] } }
    ensures overfull_log { (bytes : List ℕ) → most_batch_bytes < length bytes → ¬ IsOpenLog {D = ℕ} 1 5
        record { disk = 0; tail = record { node = 1; place = 0; last = 5; live = true; bytes = bytes }; llsns = [] } }
    ensures all_forced { AllForced active_part active_part }
    ensures not_all_forced { ¬ AllForced put_part put_part }
    ensures none_forced { SomeForced put_part put_part }
    ensures forcing_makes_none { ¬ SomeForced active_part put_part }
    ensures gave_none { OnlyGaveBack active_part active_part }
    ensures giving_makes_none { ¬ OnlyGaveBack active_part put_part }
    ensures all_durable { (run : Run) → IsAllDurable 1 (node_of_first run active_part) }
    ensures not_all_durable { (run : Run) → ¬ IsAllDurable 1 (node_of_first run put_part) }
    ensures let_go { HasLetGo active_part active_part }
    ensures keeps_a_lock { ¬ HasLetGo active_part (holding_zero Read active_part) }
{}
