//! What the words of contracts say, tried on small nodes, as the contract of a function that does nothing.
ghost use Rattle.std.specs.Prelude.{[], ◌∷◌, None, Some};
ghost use Rattle.mp_core_pages.specs.declared.page_lock.Held.TheVariants.{Write};
ghost use Rattle.mp_shared.specs.Nodes.{Run};
ghost use Rattle.mp_shared.specs.SmallNodes.{node_of_first};
ghost use Rattle.mp_supports.specs.SmallParts.{part_before_steps};
ghost use Rattle.mp_desk.specs.SmallDesks.{leaf_part, holding_root};
ghost use Rattle.mp_desk_tests.specs.Handover.{KnowsNoPage};
ghost use Rattle.mp_changes.specs.Changing.{HasPutInTurn, HasNoPageLeft, HasChanged, changed_text};
ghost use Rattle.mp_changes.specs.declared.stops.Stop.TheVariants.{Unopened};
ghost use Rattle.mp_changes.specs.SmallTurns.{one_put_part, one_commit_part};

/// A part before its steps put nothing, knows nothing of pages and holds none. One that made an mtr put its value at its key
/// once, not twice, and no other value; a commit is no put. One that was given a leaf knows it, and one that has a lock holds
/// a page.
pub fn law_changes_examples()
    ensures none { (run : Run) → HasPutInTurn (node_of_first run part_before_steps) 1 5 (Some changed_text) 0 }
    ensures once { (run : Run) → HasPutInTurn (node_of_first run one_put_part) 1 5 (Some (98 ∷ [])) 1 }
    ensures not_twice { (run : Run) → ¬ HasPutInTurn (node_of_first run one_put_part) 1 5 (Some (98 ∷ [])) 2 }
    ensures no_other { (run : Run) → ¬ HasPutInTurn (node_of_first run one_put_part) 1 5 (Some (97 ∷ [])) 1 }
    ensures no_commit { (run : Run) → ¬ HasPutInTurn (node_of_first run one_commit_part) 1 5 (Some (98 ∷ [])) 1 }
    ensures knows_none { (run : Run) → KnowsNoPage (node_of_first run part_before_steps) 1 }
    ensures knows_a_leaf { (run : Run) → ¬ KnowsNoPage (node_of_first run leaf_part) 1 }
    ensures holds_a_page { (run : Run) → ¬ HasNoPageLeft (node_of_first run (holding_root Write part_before_steps)) 1 }
{}

/// A primary that did nothing has no turn to its name: it says so where its log wasn't opened, or where no turn was asked
/// for, and otherwise it says neither that it was done nor that all were.
pub fn law_outcomes_examples()
    ensures unopened { (run : Run) → HasChanged 1 1 5 (Some changed_text) (node_of_first run part_before_steps) 0 (Some Unopened) }
    ensures none_asked { (run : Run) → HasChanged 1 1 0 (Some changed_text) (node_of_first run part_before_steps) 0 None }
    ensures not_done { (run : Run) → ¬ HasChanged 1 1 5 (Some changed_text) (node_of_first run part_before_steps) 5 None }
    ensures not_all { (run : Run) → ¬ HasChanged 1 1 5 (Some changed_text) (node_of_first run part_before_steps) 0 None }
{}
