//! What a write does, why it stops, and what stands before it, and what not, on small cases, as the contracts of functions
//! that do nothing.
ghost use Rattle.std.specs.Prelude.{◌≡◌, ℕ, [], ◌∷◌, None, Some, replicate};
ghost use Rattle.mp_cells.specs.SmallMaps.{gone_row};
ghost use Rattle.mp_core_trx.specs.declared.slot.SlotTag.{SlotTag};
ghost use Rattle.mp_core_trx.specs.Words.{shows};
ghost use Rattle.mp_core_trx.specs.Parts.{trx, begun_of};
ghost use Rattle.mp_shared.specs.Nodes.{Run, NodeView, Reached};
ghost use Rattle.mp_shared.specs.SmallNodes.{node_of_first};
ghost use Rattle.mp_trx_fusion.specs.declared.slot_status.SlotStatus.TheVariants as statuses;
ghost use Rattle.mp_supports.specs.SmallParts.{own_trx, younger_trx, part_before_steps, small_part, version_by, only_meta, load_showing, put_over, made_at_four};
ghost use Rattle.mp_desk.specs.declared.halts.WriteHalt.TheVariants as halts;
ghost use Rattle.mp_desk.specs.Writes.{PutsValue, ShowsReplaced, HasUnfreedWriter, ShowsWriter, ShowsOpenWriter, IsOpenStatus, StopsWrite, Withstands, HaltsPlan, HaltsWrite, HasFormers, PutsBackRows};
ghost use Rattle.mp_desk.specs.SmallDesks.{root_buffer, unwritten_row, younger_row, older_row, own_row, settled_part, blocked_part};

/// An mtr puts its own value over a version that committed below the view, and no other value. A leaf without the key shows a
/// gone row, and no buffer shows none. A writer that was begun isn't one of version 0. A slot that shows ACTIVE is an open
/// writer's, one that shows COMMITTED isn't. A commit above the view is a conflict, one at it is none. A younger open
/// transaction withstands as the key's writer, and doesn't hold it as an older one would. A write waits for it where a leaf shows
/// it, and a full page 0 halts the plan, which no writer does.
pub fn law_writing_examples()
    ensures puts { PutsValue settled_part (begun_of own_trx 3) 5 (Some (98 ∷ [])) older_row (put_over older_row own_row) }
    ensures no_other_value { ¬ PutsValue settled_part (begun_of own_trx 3) 5 None older_row (put_over older_row own_row) }
    ensures replaced { ShowsReplaced (root_buffer ∷ []) 5 (gone_row 5) }
    ensures not_without_buffers { ¬ ShowsReplaced [] 5 (gone_row 5) }
    ensures unwritten { (n : NodeView) → HasUnfreedWriter n unwritten_row }
    ensures never_begun { (n : NodeView) → Reached n → ¬ HasUnfreedWriter n (version_by (Some (trx 1 0 0)) None 97) }
    ensures shows_active { ShowsWriter blocked_part own_trx younger_row younger_trx (shows SlotTag.Active 3 0) }
    ensures not_committed { ¬ ShowsWriter blocked_part own_trx younger_row younger_trx (shows SlotTag.Committed 3 4) }
    ensures open { ShowsOpenWriter blocked_part own_trx younger_row younger_trx }
    ensures not_open { ¬ ShowsOpenWriter (small_part (load_showing younger_trx (shows SlotTag.Committed 3 4) ∷ []) [] [])
        own_trx younger_row younger_trx }
    ensures open_status { IsOpenStatus statuses.Active }
    ensures freed_status { ¬ IsOpenStatus statuses.Free }
    ensures conflict { StopsWrite (begun_of own_trx 3) younger_trx (statuses.Committed 4) (halts.Conflict younger_trx 4) }
    ensures no_conflict_at_the_view { ¬ StopsWrite (begun_of own_trx 3) younger_trx (statuses.Committed 3) (halts.Conflict younger_trx 3) }
    ensures withstands { Withstands blocked_part (begun_of own_trx 3) younger_row (halts.Writer younger_trx) }
    ensures not_as_an_older_one { ¬ Withstands blocked_part (begun_of own_trx 3) younger_row (halts.Held younger_trx) }
    ensures full { (run : Run) (before : NodeView)
        → HaltsPlan 1 before (node_of_first run (small_part [] (only_meta (replicate 512 255) ∷ []) [])) halts.Full }
    ensures no_writer_halts_a_plan { (p : ℕ) (before after : NodeView) → ¬ HaltsPlan p before after (halts.Writer younger_trx) }
    ensures waits { (run : Run) (before : NodeView)
        → HaltsWrite 1 (begun_of own_trx 3) 5 before (node_of_first run blocked_part) (halts.Writer younger_trx) }
    ensures not_in_an_empty_part { (run : Run) (before : NodeView)
        → ¬ HaltsWrite 1 (begun_of own_trx 3) 5 before (node_of_first run part_before_steps) (halts.Writer younger_trx) }
{}

/// The row that a put replaced is the former one of its key, and a transaction that put has one. No rows put back leave all as it
/// was, and no more are put back than there are.
pub fn law_former_examples()
    ensures formers { HasFormers (small_part [] [] (made_at_four (put_over unwritten_row own_row))) own_trx (unwritten_row ∷ []) }
    ensures not_none { ¬ HasFormers (small_part [] [] (made_at_four (put_over unwritten_row own_row))) own_trx [] }
    ensures none_back { PutsBackRows own_trx [] 0 0 (small_part [] [] []) (small_part [] [] []) }
    ensures no_more_back { ¬ PutsBackRows own_trx [] 0 1 (small_part [] [] []) (small_part [] [] []) }
{}
