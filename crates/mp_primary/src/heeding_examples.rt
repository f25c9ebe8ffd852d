//! What the words on primaries that are down say, tried on small cases, as the contracts of functions that do nothing.
ghost use Rattle.std.specs.Prelude.{◌≡◌, ◌≢◌, ℕ, [], ◌∷◌, None, Some};
ghost use Rattle.mp_machine.specs.View.{part_in};
ghost use Rattle.mp_model.specs.declared.replies.Reply.{Reply};
ghost use Rattle.mp_model.specs.declared.waiting.Cause.{Cause};
ghost use Rattle.mp_model.specs.declared.waiting.Turn.{Turn};
ghost use Rattle.mp_model.specs.declared.waiting.WordKind.{WordKind};
ghost use Rattle.mp_core.specs.declared.part.CorePart.{CorePart};
ghost use Rattle.mp_core.specs.Downs.{goes_down_by, with_down_load};
ghost use Rattle.mp_book.specs.SmallBooks.{its_name, one_on_one, answered_as};
ghost use Rattle.mp_outside.specs.Faults.{Rose};
ghost use Rattle.mp_shared.specs.Nodes.{Run, NodeView};
ghost use Rattle.mp_supports.specs.SmallParts.{part_before_steps, open_part};
ghost use Rattle.mp_primary.specs.Primaries.{PrimaryView};
ghost use Rattle.mp_primary.specs.Downs.{HasWord, NeedsOf, IsAnother, WentOn, OnlyDowns, OnlyLoads, LoadedSince, FoundUp, FoundAllUp, FoundOneDown, IsDownAsTold, WentDownHere};
ghost use Rattle.mp_primary.specs.Turns.{HasWaits, WaitsStill, GoesDownWith, WentDownIn, TakesTurn};

use mp_outside::Disk;

/// Of a page's lock a statement needs each that the word names, reader or writer, and nobody else; of a least view its owner; of
/// a transaction the primary that its session is declared on. A primary looks at others of the eight.
pub fn law_need_examples()
    ensures a_reader { NeedsOf [] (Cause.Word record { of = WordKind.Lock; at = 5; seen = 6 }) 2 }
    ensures no_reader { ¬ NeedsOf [] (Cause.Word record { of = WordKind.Lock; at = 5; seen = 6 }) 1 }
    ensures the_writer { HasWord WordKind.Lock 5 768 3 }
    ensures no_frame { (at seen of : ℕ) → ¬ HasWord WordKind.Frame at seen of }
    ensures its_least { NeedsOf [] (Cause.Word record { of = WordKind.Least; at = 4; seen = 0 }) 4 }
    ensures another_least { ¬ NeedsOf [] (Cause.Word record { of = WordKind.Least; at = 4; seen = 0 }) 5 }
    ensures its_primary { NeedsOf one_on_one (Cause.Writer its_name) 1 }
    ensures another_primary { ¬ NeedsOf one_on_one (Cause.Prep its_name) 2 }
    ensures another { IsAnother 1 2 }
    ensures not_itself { ¬ IsAnother 1 1 }
    ensures no_ninth { ¬ IsAnother 1 9 }
{}

/// A primary's number is what its own word holds. A part that changed otherwise than in what it knows of primaries that are down
/// didn't only load. Nothing was loaded where the part is as it was. No other part changes, and none goes to another run.
pub fn law_load_examples()
    ensures told { (pr : PrimaryView ℕ) (n : NodeView) → part_in n.parts pr.number ≡ Some (record part_before_steps { downs = goes_down_by 2 part_before_steps.downs }) → pr.down ≡ 2 → IsDownAsTold pr n }
    ensures untold { (pr : PrimaryView ℕ) (n : NodeView) → part_in n.parts pr.number ≡ Some part_before_steps → pr.down ≡ 2 → ¬ IsDownAsTold pr n }
    ensures stored { OnlyDowns part_before_steps (record part_before_steps { downs = goes_down_by 1 part_before_steps.downs; ops = 1 }) }
    ensures began { ¬ OnlyDowns part_before_steps open_part }
    ensures only_loads { OnlyLoads part_before_steps (record part_before_steps { downs = with_down_load 2 3 part_before_steps.downs; ops = 1 }) }
    ensures stores { ¬ OnlyLoads part_before_steps (record part_before_steps { downs = goes_down_by 1 part_before_steps.downs; ops = 1 }) }
    ensures loaded { LoadedSince 2 3 part_before_steps (record part_before_steps { downs = with_down_load 2 3 part_before_steps.downs; ops = 1 }) }
    ensures loaded_nothing { (of by : ℕ) (q : CorePart) → ¬ LoadedSince of by q q }
    ensures went_nowhere { (p : ℕ) (n : NodeView) → WentOn OnlyDowns p n n }
    ensures another_run { (p : ℕ) (before after : NodeView) → after.run ≢ before.run → ¬ WentOn OnlyDowns p before after }
    ensures not_up { (p of : ℕ) (before after : NodeView) → after.run ≢ before.run → ¬ FoundUp p of before after }
{}

/// A primary goes down with the number of another only where it loaded that, of one other than itself, and not 0. One that
/// waits on went on by loads alone. It goes down by itself only where its log's disk failed. An answer tells for whom its
/// statement waited, and one that isn't stopped for nobody besides. A turn leaves the number in the primary's own word.
pub fn law_follow_examples<D: Disk>()
    ensures all_up { (pr : PrimaryView D) (n : NodeView) → FoundAllUp pr (Cause.Word record { of = WordKind.Frame; at = 5; seen = 1 }) n n }
    ensures not_all_up { (pr : PrimaryView D) (cause : Cause) (at after : NodeView) → after.run ≢ at.run → ¬ FoundAllUp pr cause at after }
    ensures none_loaded { (old new : PrimaryView D) (cause : Cause) (n : NodeView) (q : CorePart) → part_in n.parts old.number ≡ Some q → ¬ FoundOneDown old new cause n n }
    ensures up_still { (old new : PrimaryView D) (cause : Cause) (at after : NodeView) → new.down ≡ 0 → ¬ FoundOneDown old new cause at after }
    ensures not_with_its_own { (old new : PrimaryView D) (before after : NodeView) → old.number ≡ 1 → (h : GoesDownWith old new before after 0) → h.found.of ≢ 1 }
    ensures not_for_a_frame { (old new : PrimaryView D) (before after : NodeView) (at seen : ℕ) → (h : GoesDownWith old new before after 0) → h.cause ≢ Cause.Word record { of = WordKind.Frame; at = at; seen = seen } }
    ensures waits_elsewhere { (old : PrimaryView D) (before after : NodeView) (cause : Cause) → (h : WaitsStill old 0 before after cause) → after.run ≡ h.at.run }
    ensures here { (old new : PrimaryView D) → new.down ≡ old.number → Rose (D.faults old.media.log.disk) (D.faults new.media.log.disk) → WentDownHere D.Disk old new }
    ensures by_itself { (old new : PrimaryView D) (before after : NodeView) → WentDownHere D.Disk old new → WentDownIn D.Disk old new before after None }
    ensures by_nobody { (old new : PrimaryView D) (before after : NodeView) → old.number ≡ 1 → new.down ≡ 2 → ¬ WentDownIn D.Disk old new before after None }
    ensures waited { HasWaits [] (answered_as 2 Reply.CommittedNone) }
    ensures waited_besides { HasWaits [] (record (answered_as 2 (Reply.Stopped 2)) { waits = record { items = its_name ∷ []; spare = 0 } }) }
    ensures not_besides { ¬ HasWaits [] (record (answered_as 2 Reply.CommittedNone) { waits = record { items = its_name ∷ []; spare = 0 } }) }
    ensures not_told { (run : Run) (old new : PrimaryView D) (before after : NodeView) (turn : Turn) → part_in after.parts new.number ≡ Some part_before_steps → new.down ≡ 1 → ¬ TakesTurn D.Disk run old new before after None turn }
{}
