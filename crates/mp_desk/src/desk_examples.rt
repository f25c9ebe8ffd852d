//! What a desk, what is brought to it and what is planned there are, and what they are not, on small cases, as the
//! contracts of functions that do nothing.
ghost use Rattle.std.specs.Prelude.{◌≡◌, ℕ, true, false, [], ◌∷◌, None, Some, List};
ghost use Rattle.mp_model.specs.declared.waiting.NotYet.{NotYet};
ghost use Rattle.mp_cells.specs.declared.changes.Change.TheVariants.{MakeUndo};
ghost use Rattle.mp_cells.specs.declared.rows.Link.{Link};
ghost use Rattle.mp_cells.specs.declared.rows.Row.{Row};
ghost use Rattle.mp_cells.specs.Plans.{plan_of};
ghost use Rattle.mp_cells.specs.SmallMaps.{gone_row};
ghost use Rattle.mp_histories.specs.SmallHistory.{small_trx, small_put, small_restore};
ghost use Rattle.mp_core.specs.declared.part.CorePart.{CorePart};
ghost use Rattle.mp_machine.specs.View.{part_in};
ghost use Rattle.mp_supports.specs.Seeing.{ShowsNext};
ghost use Rattle.mp_core_pages.specs.declared.page_lock.Held.TheVariants.{Read};
ghost use Rattle.mp_facts.specs.Facts.{Facts};
ghost use Rattle.mp_shared.specs.Nodes.{Run, NodeView, Reached};
ghost use Rattle.mp_shared.specs.PageSteps.{MissedFrame};
ghost use Rattle.mp_shared.specs.SmallNodes.{node_of_first, holding_zero};
ghost use Rattle.mp_buffer_fusion.specs.declared.buffer.Buffer.{Buffer};
ghost use Rattle.mp_buffer_fusion.specs.Fetching.{frame_missed};
ghost use Rattle.mp_buffer_fusion.specs.PoolExamples.{blank_buffer};
ghost use Rattle.mp_core.specs.Downs.{first_down_part, goes_down_by};
ghost use Rattle.mp_supports.specs.Steps.{OnlyLooked};
ghost use Rattle.mp_supports.specs.SmallParts.{own_trx, part_before_steps, small_part, version_by, only_leaf, only_undo, first_link};
ghost use Rattle.mp_tree.specs.declared.write.PlanRefusal.TheVariants as refusals;
ghost use Rattle.mp_desk.specs.declared.desk.Desk.{Desk};
ghost use Rattle.mp_desk.specs.Desks.{DeskAgrees, Moves, IsAtDesk, IsGivenSince, IsReadAfresh, HasSameWork, KeepsLocks, Brings, MissesHere, MetWait, HasLeaf, IsWayTo, InEachWorld, LiesAt, IsRecordAt};
ghost use Rattle.mp_desk.specs.Planned.{PlansWrite, PlansBack, RefusesPlan};
ghost use Rattle.mp_desk.specs.SmallDesks.{desk_with, root_buffer, fresh_buffers, put_buffer, holding_root, least_wait, unwritten_row, leaf_part};

/// An empty desk agrees with a part that made nothing, and not at an LLSN that nobody told the part. It is at work on a node
/// that is reached, and not while it carries a frame. A node that stays moves nothing; no call at a desk takes its primary down.
/// A page that wasn't given isn't given since. Another plan is other work.
/// A call that keeps the locks loses none, and one that brings no page leaves no more buffers.
pub fn law_at_desk_examples()
    ensures agrees { DeskAgrees (desk_with [] 0) part_before_steps }
    ensures not_above_all_told { ¬ DeskAgrees (desk_with [] 7) part_before_steps }
    ensures at_desk { (run : Run) → Reached (node_of_first run part_before_steps)
        → IsAtDesk run (desk_with [] 0) 1 (node_of_first run part_before_steps) }
    ensures not_with_a_frame { (run : Run) (desk : Desk) (p : ℕ) (n : NodeView) → n.frames ≡ 3 ∷ [] → ¬ IsAtDesk run desk p n }
    ensures moves { (run : Run) → Moves OnlyLooked 1 (node_of_first run part_before_steps) (node_of_first run part_before_steps) }
    ensures goes_not_down { (run : Run) → ¬ Moves (λ q r. Unit {0}) 1 (node_of_first run part_before_steps)
        (node_of_first run (record part_before_steps { downs = goes_down_by 1 first_down_part })) }
    ensures given { IsGivenSince part_before_steps leaf_part 1 (only_leaf unwritten_row).page (only_leaf unwritten_row) }
    ensures not_given { ¬ IsGivenSince part_before_steps part_before_steps 1 (only_leaf unwritten_row).page (only_leaf unwritten_row) }
    ensures afresh { (desk : Desk) (p : ℕ) (n : NodeView) → desk.pool ≡ [] → IsReadAfresh desk p n }
    ensures not_afresh { (run : Run) → ¬ IsReadAfresh (desk_with (blank_buffer 5 false ∷ []) 5) 1 (node_of_first run part_before_steps) }
    ensures same_work { HasSameWork (desk_with [] 0) (desk_with (blank_buffer 5 true ∷ []) 5) }
    ensures another_plan { (desk : Desk) → ¬ HasSameWork (record desk { plan = [] }) (record desk { plan = (1, MakeUndo) ∷ [] }) }
    ensures keeps_locks { (p : ℕ) (n : NodeView) → KeepsLocks p n n }
    ensures loses_a_lock { (run : Run)
        → ¬ KeepsLocks 1 (node_of_first run (holding_zero Read part_before_steps)) (node_of_first run part_before_steps) }
    ensures brings_none { (p : ℕ) (desk : Desk) (n : NodeView) → Brings 0 p desk desk n n }
    ensures not_one_more { (p : ℕ) (n : NodeView) → ¬ Brings 0 p (desk_with [] 0) (desk_with (blank_buffer 5 true ∷ []) 5) n n }
{}

/// A call that misses a frame is refused so, and met its wait; no call for a page waits for a least view. A leaf is at hand under its lock, and not
/// without it. The way to a key ends at the root where that is a leaf; without buffers there is no way. What holds in each
/// world isn't false of a node that is reached. What an undo page shows at a link lies there, and page 0 has no undo records.
/// An undo record is where it was given.
pub fn law_finding_examples()
    ensures misses { (p k : ℕ) (before after : NodeView) → MissedFrame p k before after → MissesHere p before after (frame_missed k) }
    ensures misses_no_view { (p : ℕ) (before after : NodeView) → ¬ MissesHere p before after least_wait }
    ensures met { (p : ℕ) (before after : NodeView) (wait : NotYet) → MissesHere p before after wait → MetWait p before after wait }
    ensures met_no_view { (p : ℕ) (before after : NodeView) → ¬ MetWait p before after least_wait }
    ensures leaf { (run : Run) → HasLeaf (desk_with (root_buffer ∷ []) 0) 1 5 1 (node_of_first run (holding_root Read part_before_steps)) }
    ensures not_without_its_lock { (run : Run) → ¬ HasLeaf (desk_with (root_buffer ∷ []) 0) 1 5 1 (node_of_first run part_before_steps) }
    ensures way { IsWayTo (root_buffer ∷ []) 5 1 }
    ensures no_way { ¬ IsWayTo [] 5 1 }
    ensures in_each { (n : NodeView) → InEachWorld n (Facts n.run.opening) }
    ensures not_in_each { (n : NodeView) → Reached n → ¬ InEachWorld n (λ w. ⊥) }
    ensures lies { (p : ℕ) (n : NodeView) (q : CorePart) (row next : Row) (link : Link) → Reached n → part_in n.parts p ≡ Some q
        → row.link ≡ Some link → ShowsNext q row next → LiesAt p n link }
    ensures not_on_page_zero { (p : ℕ) (n : NodeView) → Reached n → ¬ LiesAt p n record { page = 0; index = 0 } }
    ensures record_at { IsRecordAt (small_part [] (only_undo (version_by None None 98) ∷ []) []) first_link (version_by None None 98) }
    ensures no_record { ¬ IsRecordAt part_before_steps first_link (version_by None None 98) }
{}

/// The plan of the small put puts its row over a fresh map, and that of the small restore puts the former row back; an empty plan
/// does neither. A refusal waits as its call for a page does, and without page 0 there is none for want of pages.
pub fn law_planning_examples()
    ensures puts { PlansWrite fresh_buffers None record { key = 7; value = None; writer = small_trx 0 } (plan_of small_put.records) }
    ensures puts_none { ¬ PlansWrite [] None record { key = 5; value = None; writer = own_trx } [] }
    ensures puts_back { PlansBack (put_buffer ∷ []) (gone_row 7) (plan_of small_restore.records) }
    ensures puts_none_back { ¬ PlansBack [] (gone_row 1) [] }
    ensures refused { (p : ℕ) (pool : List Buffer) (before after : NodeView) (wait : NotYet) → MissesHere p before after wait
        → RefusesPlan p pool before after (refusals.NotYet wait) }
    ensures not_full { (p : ℕ) (before after : NodeView) → ¬ RefusesPlan p [] before after (refusals.Full 1 0) }
{}
