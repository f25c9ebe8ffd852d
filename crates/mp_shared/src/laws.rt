//! What the words of contracts say, tried on small nodes, as the contracts of functions that do nothing.
ghost use Rattle.std.specs.Prelude.{◌≡◌, ℕ, ◌+◌, [], ◌∷◌, None, Some};
ghost use Rattle.mp_cells.specs.PageView.{PageView};
ghost use Rattle.mp_core_pages.specs.declared.page_lock.Held.{Held};
ghost use Rattle.mp_core_pages.specs.declared.page_lock.Held.TheVariants.{No, Read, Write};
ghost use Rattle.mp_core_pages.specs.declared.opening.TheConstants.{PAGES};
ghost use Rattle.mp_core_pages.specs.PageEvents.{with_lock};
ghost use Rattle.mp_machine.specs.View.{part_in};
ghost use Rattle.mp_core.specs.declared.part.CorePart.{CorePart};
ghost use Rattle.mp_core.specs.Downs.{down_load, goes_down_by, with_down_load};
ghost use Rattle.mp_shared.specs.DownSteps.{with_downs};
ghost use Rattle.mp_shared.specs.Nodes.{Run, NodeView};
ghost use Rattle.mp_shared.specs.PageSteps.{held_in, with_pages, with_ops, MissedFrame};
ghost use Rattle.mp_shared.specs.LockTables.{NotesLocks, NotesPart, IsFirstHeld};
ghost use Rattle.mp_shared.specs.KeptNodes.{CarriesAllOut};
ghost use Rattle.mp_shared.specs.Endings.{NobodyWrites, Closes};
ghost use Rattle.mp_shared.specs.SmallNodes.{node_of_first, holding_zero, has_three, view_of_one};

/// How a node holds the lock of a page for a primary: as the part of that primary says, and not at all for another page or
/// another primary. A change of a part's locks shows, and an operation alone changes none. The first page held is found, and
/// no later one in its place.
pub fn law_holds_examples()
    ensures held { (run : Run) (q : CorePart) (held : Held) → held_in (node_of_first run (holding_zero held q)) 1 0 ≡ held }
    ensures other_page { (run : Run) (q : CorePart) → held_in (node_of_first run (holding_zero Write q)) 1 1 ≡ No }
    ensures other_primary { (run : Run) (q : CorePart) → held_in (node_of_first run (holding_zero Write q)) 2 0 ≡ No }
    ensures changed { (run : Run) (q : CorePart) → held_in (with_pages (node_of_first run (holding_zero Read q)) 1 (with_lock 0 Write) 1) 1 0 ≡ Write }
    ensures same { (run : Run) (q : CorePart) → held_in (with_ops (node_of_first run (holding_zero Read q)) 1 2) 1 0 ≡ Read }
    ensures first { (run : Run) (q : CorePart) → IsFirstHeld (held_in (node_of_first run (holding_zero Read q)) 1) 0 PAGES (Some 0) }
    ensures not_none { (run : Run) (q : CorePart) → ¬ IsFirstHeld (held_in (node_of_first run (holding_zero Read q)) 1) 0 PAGES None }
    ensures not_second { (run : Run) (q : CorePart) → ¬ IsFirstHeld (held_in (node_of_first run (holding_zero Read q)) 1) 0 PAGES (Some 1) }
    ensures writes { (run : Run) (q : CorePart) → ¬ NobodyWrites (node_of_first run (holding_zero Write q)) 0 }
    ensures reads { (run : Run) (q : CorePart) → NobodyWrites (node_of_first run (holding_zero Read q)) 0 }
{}

/// What a node keeps for the locks and frames of its parts, and what it gives at its end. A node without a part needs no
/// table, and one with a part needs one that says of each page how it is held; a part's frame is carried by its node; there
/// is a frame for each page, and none is missed whose turn word is 0.
pub fn law_keeps_examples()
    ensures no_part { NotesPart None None }
    ensures no_table { (q : CorePart) → ¬ NotesPart None (Some q) }
    ensures short_table { (held : ℕ → Held) → ¬ NotesLocks (Some []) held }
    ensures carried { (y : PageView) (q : CorePart) → CarriesAllOut (view_of_one (has_three y q)) (3 ∷ []) }
    ensures not_carried { (y : PageView) (q : CorePart) → ¬ CarriesAllOut (view_of_one (has_three y q)) [] }
    ensures no_frames { (n : NodeView) → ¬ Closes n [] }
    ensures missed { (before : NodeView) (after : NodeView) (t : MissedFrame 1 0 before after) → ¬ (t.0 ≡ 0) }
{}

/// What the steps on down words make of a node. The part of the primary has the number with which it goes down, or one
/// more number that it loaded; 0 is not kept, and then it has only made an operation more; no other part comes in.
pub fn law_downs_examples()
    ensures stored { (run : Run) (q : CorePart) → part_in (with_downs (node_of_first run q) 1 (goes_down_by 3) 1).parts 1 ≡ Some record q { downs = record { own = 3; loaded = q.downs.loaded }; ops = q.ops + 1 } }
    ensures loaded { (run : Run) (q : CorePart) → part_in (with_downs (node_of_first run q) 1 (with_down_load 2 3) 1).parts 1 ≡ Some record q { downs = record { own = q.downs.own; loaded = down_load 2 3 ∷ q.downs.loaded }; ops = q.ops + 1 } }
    ensures loaded_none { (run : Run) (q : CorePart) → with_downs (node_of_first run q) 1 (with_down_load 2 0) 1 ≡ with_ops (node_of_first run q) 1 1 }
    ensures other_primary { (run : Run) (q : CorePart) → part_in (with_downs (node_of_first run q) 1 (goes_down_by 3) 1).parts 2 ≡ None }
{}
