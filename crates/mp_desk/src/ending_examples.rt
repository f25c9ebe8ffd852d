//! How a commit ends, and how a row is put back, and how not, on small cases, as the contracts of functions that do nothing.
ghost use Rattle.std.specs.Prelude.{◌≡◌, ℕ, true, false, [], ◌∷◌, Some, Ok, Err};
ghost use Rattle.mp_model.specs.declared.waiting.NotYet.{NotYet};
ghost use Rattle.mp_cells.specs.declared.changes.Change.TheVariants.{MakeUndo};
ghost use Rattle.mp_cells.specs.declared.records.Record.TheVariants as records;
ghost use Rattle.mp_cells.specs.Plans.{plan_of};
ghost use Rattle.mp_cells.specs.SmallMaps.{gone_row};
ghost use Rattle.mp_core_trx.specs.Parts.{begun_of};
ghost use Rattle.mp_core_pages.specs.declared.page_lock.Held.TheVariants.{Write};
ghost use Rattle.mp_core_pages.specs.Histories.{placed};
ghost use Rattle.mp_core_pages.specs.PageEvents.{with_mtr};
ghost use Rattle.mp_histories.specs.SmallHistory.{small_trx, small_restore};
ghost use Rattle.mp_facts.specs.SmallParts.{active_part, put_part, restored_part};
ghost use Rattle.mp_shared.specs.Nodes.{Run, NodeView};
ghost use Rattle.mp_shared.specs.SmallNodes.{node_of_first};
ghost use Rattle.mp_supports.specs.Work.{Work};
ghost use Rattle.mp_supports.specs.SmallParts.{nothing_before, own_trx, part_before_steps};
ghost use Rattle.mp_supports.specs.Media.{OnDisk};
ghost use Rattle.mp_desk.specs.declared.desk.Desk.{Desk};
ghost use Rattle.mp_desk.specs.declared.media.Media.{Media};
ghost use Rattle.mp_desk.specs.declared.halts.BackHalt.TheVariants as backs;
ghost use Rattle.mp_desk.specs.declared.halts.CommitHalt.TheVariants as commits;
ghost use Rattle.mp_desk.specs.Desks.{MissesHere};
ghost use Rattle.mp_desk.specs.Making.{mtr_of_plan, MakesLater, HoldsPartOf, MediaAgree, MediaAgreeSomehow};
ghost use Rattle.mp_desk.specs.Writes.{CommitsAt, IsPublished, IsInTheBalance};
ghost use Rattle.mp_desk.specs.Rolling.{MakesBack, IsFormer, IsFormerIn, IsPlannedBack, HaltsBack};
ghost use Rattle.mp_desk.specs.Ending.{StopsCommit, stamp_of, MediaAfterCommit};
ghost use Rattle.mp_desk.specs.SmallDesks.{desk_with, root_buffer, holding_root, least_wait, ready_part, recorded_part, stamped_part};

use mp_outside::Disk;

/// A commit that is recorded is in the balance until its record is durable and its slot shows it; then it is published, and
/// never both. Nothing recorded is no commit. A commit that stops before its begin leaves the node, and carries no frame off. A
/// timestamp was drawn behind the record alone. A planned mtr has the LLSN after the desk's.
pub fn law_commit_examples()
    ensures recorded { CommitsAt (begun_of own_trx 3) 5 ready_part recorded_part }
    ensures not_recorded { ¬ CommitsAt (begun_of own_trx 3) 5 ready_part ready_part }
    ensures in_the_balance { IsInTheBalance (begun_of own_trx 3) 5 ready_part recorded_part }
    ensures not_once_published { ¬ IsInTheBalance (begun_of own_trx 3) 5 ready_part stamped_part }
    ensures published { IsPublished (begun_of own_trx 3) 5 ready_part stamped_part }
    ensures not_in_the_balance { ¬ IsPublished (begun_of own_trx 3) 5 ready_part recorded_part }
    ensures stops { (p : ℕ) (n : NodeView) → StopsCommit p (begun_of own_trx 3) n n commits.Failed }
    ensures not_with_a_frame { (p : ℕ) (n : NodeView) → n.frames ≡ []
        → ¬ StopsCommit p (begun_of own_trx 3) n (record n { frames = 3 ∷ [] }) commits.Failed }
    ensures stamp { stamp_of (Err (commits.Unknown 5)) ≡ Some 5 }
    ensures no_stamp { ¬ (stamp_of (Err commits.Failed) ≡ Some 5) }
    ensures planned { mtr_of_plan (record (desk_with [] 0) { plan = (1, MakeUndo) ∷ [] })
        ≡ record { node = 1; llsn = 1; records = records.Page 1 0 MakeUndo ∷ [] } }
    ensures not_the_llsn { (desk : Desk) → ¬ ((mtr_of_plan desk).llsn ≡ desk.llsn) }
{}

/// Media whose log is the primary's and holds all of the part agree with it, with its node, for some work, and after its commit.
/// They don't where the log is another's, and don't hold something unforced of a part that made no mtr.
pub fn law_held_media_examples<D: Disk>()
    ensures agree { (work : Work) (media : Media D) (run : Run) → HoldsPartOf D.Disk work 0 1 media part_before_steps
        → MediaAgree D.Disk work 0 media 1 (node_of_first run part_before_steps) }
    ensures not_agree { (work : Work) (media : Media D) (run : Run) → media.unforced ≡ true
        → ¬ MediaAgree D.Disk work 0 media 1 (node_of_first run part_before_steps) }
    ensures holds { (work : Work) (media : Media D) → work.base ≡ nothing_before → media.log.tail.node ≡ 1 → media.unforced ≡ false
        → OnDisk work part_before_steps 0 media.log.tail media.unforced (D.tells media.log.disk) (D.seen media.log.disk) (D.image media.log.disk)
        → HoldsPartOf D.Disk work 0 1 media part_before_steps }
    ensures not_anothers_log { (work : Work) (media : Media D) → media.log.tail.node ≡ 2 → ¬ HoldsPartOf D.Disk work 0 1 media part_before_steps }
    ensures none_unforced { (work : Work) (media : Media D) → media.unforced ≡ true → ¬ HoldsPartOf D.Disk work 0 1 media part_before_steps }
    ensures somehow { (work : Work) (media : Media D) (p : ℕ) (n : NodeView) → MediaAgree D.Disk work 0 media p n
        → MediaAgreeSomehow D.Disk media p n }
    ensures not_somehow { (media : Media D) (run : Run) → media.unforced ≡ true
        → ¬ MediaAgreeSomehow D.Disk media 1 (node_of_first run part_before_steps) }
    ensures committed { (work : Work) (media : Media D) (p : ℕ) (n : NodeView) → MediaAgree D.Disk work 0 media p n
        → MediaAfterCommit D.Disk work p media n (Ok 5) }
    ensures not_committed { (work : Work) (media : Media D) (run : Run) → media.unforced ≡ true
        → ¬ MediaAfterCommit D.Disk work 1 media (node_of_first run part_before_steps) (Ok 5) }
{}

/// The row that stood before is put back where the transaction put it away, and not before it did. It is put back later than all
/// that the node had made, and not at the same place. A plan that puts it
/// back takes its page, and an empty one puts none back. Putting back halts for a page's words, and not for a least view.
pub fn law_rolling_examples()
    ensures back { MakesBack (small_trx 0) (gone_row 7) (placed 1 small_restore) put_part restored_part }
    ensures none_back { ¬ MakesBack (small_trx 0) (gone_row 7) (placed 1 small_restore) put_part put_part }
    ensures later { (run : Run) → MakesLater 1 (node_of_first run put_part) (node_of_first run restored_part) }
    ensures not_at_once { (run : Run) → ¬ MakesLater 1 (node_of_first run put_part)
        (node_of_first run (record put_part { pages = with_mtr 0 small_restore put_part.pages })) }
    ensures former { IsFormer (small_trx 0) (gone_row 7) put_part }
    ensures no_former { ¬ IsFormer (small_trx 0) (gone_row 7) active_part }
    ensures former_in { (run : Run) → IsFormerIn 1 (small_trx 0) (gone_row 7) (node_of_first run put_part) }
    ensures no_former_in { (run : Run) → ¬ IsFormerIn 1 (small_trx 0) (gone_row 7) (node_of_first run active_part) }
    ensures planned { (run : Run) → IsPlannedBack 1 (record (desk_with (root_buffer ∷ []) 0) { plan = plan_of small_restore.records })
        (gone_row 7) (node_of_first run (holding_root Write put_part)) }
    ensures not_planned { (run : Run) → ¬ IsPlannedBack 1 (desk_with [] 0) (gone_row 7) (node_of_first run put_part) }
    ensures waits { (p : ℕ) (before after : NodeView) (wait : NotYet) → MissesHere p before after wait
        → HaltsBack p before after (backs.Word wait) }
    ensures not_for_a_view { (p : ℕ) (before after : NodeView) → ¬ HaltsBack p before after (backs.Word least_wait) }
{}
