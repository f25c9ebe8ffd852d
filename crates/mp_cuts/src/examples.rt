//! Cuts of small runs, good ones and bad ones.

ghost use Rattle.std.specs.Prelude.{◌≡◌, [], ◌∷◌};
ghost use Rattle.mp_histories.specs.SmallHistory.{small_put, small_restore};
ghost use Rattle.mp_facts.specs.SmallRuns.{three_pages, world_after, puts_row, puts_back, hands_leaf_over};
ghost use Rattle.mp_cuts.specs.ValidCuts.{IsValidCut, mtrs_of_cut};
ghost use Rattle.mp_cuts.specs.LeftBehind.{LeavesFirst};

/// Where nothing is durable, nothing need be kept, or the put alone, or all. Once the put is durable, a cut without it isn't
/// valid. A cut has its mtrs in the order of recovery.
pub fn law_cut_examples()
    ensures nothing { IsValidCut three_pages (world_after puts_row) (λ _. 0) }
    ensures all { IsValidCut three_pages (world_after hands_leaf_over) (λ _. 1) }
    ensures lost { IsValidCut three_pages (world_after hands_leaf_over) (λ _. 0) → ⊥ }
    ensures no_mtrs { mtrs_of_cut (world_after puts_back) (λ _. 0) ≡ [] }
    ensures first { mtrs_of_cut (world_after puts_back) (λ _. 1) ≡ small_put ∷ [] }
    ensures both { mtrs_of_cut (world_after puts_back) (λ _. 5) ≡ small_put ∷ small_restore ∷ [] }
{}

/// A fresh log leaves none of its node's mtrs, which is right while none is durable, and wrong once the put is. An open gate
/// alone is off the grammar. A node that made nothing leaves a fresh log.
pub fn law_left_examples()
    ensures none_durable { LeavesFirst three_pages (world_after puts_row) 1 (0 ∷ []) }
    ensures lost { LeavesFirst three_pages (world_after hands_leaf_over) 1 (0 ∷ []) → ⊥ }
    ensures off { LeavesFirst three_pages (world_after puts_row) 1 (165 ∷ []) → ⊥ }
    ensures idle { LeavesFirst three_pages (world_after hands_leaf_over) 2 (0 ∷ []) }
{}
