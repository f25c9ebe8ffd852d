//! What the words of contracts say, tried on small desks, as the contract of a function that does nothing.
ghost use Rattle.std.specs.Prelude.{◌≡◌, ℕ, true, false, [], ◌∷◌, Some, None, Option};
ghost use Rattle.mp_model.specs.declared.waiting.NotYet.{NotYet};
ghost use Rattle.mp_cells.specs.declared.changes.Change.TheVariants.{MakeUndo};
ghost use Rattle.mp_cells.specs.PageView.{blank_page};
ghost use Rattle.mp_core.specs.declared.part.CorePart.{CorePart};
ghost use Rattle.mp_shared.specs.Nodes.{NodeView};
ghost use Rattle.mp_tree.specs.declared.write.PlanRefusal.TheVariants as refusals;
ghost use Rattle.mp_buffer_fusion.specs.PoolExamples.{blank_buffer};
ghost use Rattle.mp_supports.specs.Steps.{OnlyLooked};
ghost use Rattle.mp_desk.specs.declared.desk.Desk.{Desk};
ghost use Rattle.mp_desk.specs.Desks.{Moves, AreGivenSince, KeepsDesk, shown_by};
ghost use Rattle.mp_desk.specs.Planned.{RefusesHeld, HasTaken};

/// No buffer at all has only pages that were given since any part; a buffer that isn't clean has none. A buffer shows its
/// page, and no other. A desk keeps its own buffers, and not one that it lost. Nothing is to be taken for an empty plan, and a
/// plan that changes page 1 hasn't taken it where it has no buffer. Without buffers the root is lacking, and no refusal says
/// what page 0 shows. A node that stays as it is only looked; one that has one more frame did not.
pub fn law_desk_examples()
    ensures none_given { (start q : CorePart) → AreGivenSince start q [] }
    ensures dirty_given { (start q : CorePart) → ¬ AreGivenSince start q (blank_buffer 5 false ∷ []) }
    ensures shown { shown_by (blank_buffer 5 true ∷ []) 1 ≡ Some (blank_page 5) }
    ensures not_shown { shown_by (blank_buffer 5 true ∷ []) 2 ≡ None }
    ensures kept { (desk : Desk) → KeepsDesk desk desk }
    ensures lost { (desk : Desk) → ¬ KeepsDesk (record desk { pool = blank_buffer 5 true ∷ [] }) (record desk { pool = [] }) }
    ensures taken { (p : ℕ) (n : NodeView) → HasTaken p [] [] n }
    ensures not_taken { (p : ℕ) (n : NodeView) → ¬ HasTaken p [] ((1, MakeUndo) ∷ []) n }
    ensures lacks_root { (key : ℕ) (undo : Option ℕ) (wait : NotYet) → RefusesHeld [] key undo (refusals.NotYet wait) }
    ensures no_meta { (key : ℕ) (undo : Option ℕ) → ¬ RefusesHeld [] key undo (refusals.Full 1 0) }
    ensures stays { (p : ℕ) (n : NodeView) → Moves OnlyLooked p n n }
    ensures one_frame_more { (p : ℕ) (n : NodeView) → n.frames ≡ [] → ¬ Moves OnlyLooked p n (record n { frames = 3 ∷ [] }) }
{}
