//! The conditions of mtrs and the facts, on small cases.

ghost use Rattle.std.specs.Prelude.{◌≡◌, [], ◌∷◌, Some, None};
ghost use Rattle.mp_cells.specs.SmallMaps.{gone_row};
ghost use Rattle.mp_core_pages.specs.PageParts.{given_page};
ghost use Rattle.mp_histories.specs.Histories.{live_on};
ghost use Rattle.mp_histories.specs.SmallHistory.{small_trx, small_row, small_put, small_restore, wrong_restore};
ghost use Rattle.mp_core.specs.OwnMtrs.{owner_of, first_former};
ghost use Rattle.mp_core.specs.MtrKinds.{MayPutOver, MayPut, MayRestore, MayRecordCommit};
ghost use Rattle.mp_facts.specs.SmallParts.{active_part, put_part, restored_part, drawn_part, seeing_part, slot_one_row, put_over_slot_one, first_commit_mtr};
ghost use Rattle.mp_facts.specs.Facts.{pages_now};
ghost use Rattle.mp_facts.specs.SmallRuns.{three_pages, world_after, MayAllCome, puts_row, puts_back, hands_leaf_over};

/// What the conditions of mtrs ask of a node's part. An ACTIVE transaction may put its row over one without a writer, and
/// over one of a transaction that was seen committed, but not over one whose writer was not; once it drew it puts
/// nothing. It may put back the row that its first put replaced, and no other, and nothing of a key that is not its own.
/// Its commit may be recorded once it drew, but not after something of it was put back.
pub fn law_mtr_kinds_examples()
    ensures puts { MayPut active_part small_put }
    ensures no_put_after_the_draw { ¬ MayPut (drawn_part active_part) small_put }
    ensures no_put_over_unseen { ¬ MayPut active_part put_over_slot_one }
    ensures over_seen { MayPutOver (seeing_part active_part) (small_trx 0) slot_one_row }
    ensures over_unseen { ¬ MayPutOver active_part (small_trx 0) slot_one_row }
    ensures restores { MayRestore put_part small_restore }
    ensures no_other_restore { ¬ MayRestore put_part wrong_restore }
    ensures no_second_restore { ¬ MayRestore restored_part small_restore }
    ensures records { MayRecordCommit (drawn_part put_part) first_commit_mtr }
    ensures no_record_before_the_draw { ¬ MayRecordCommit put_part first_commit_mtr }
    ensures no_record_after_a_restore { ¬ MayRecordCommit (drawn_part restored_part) first_commit_mtr }
{}

/// Small runs, and what their worlds have. Each step of a put and of its rollback may come when it does. After the put the
/// key is the transaction's own by its node's mtrs, and its version is the only one that stands, over the row that the
/// put kept; after the restore neither is so. A leaf that another node is given shows the version, whose put is durable then.
pub fn law_facts_examples()
    ensures rolled_back { MayAllCome puts_back }
    ensures handed_over { MayAllCome hands_leaf_over }
    ensures stands { live_on 7 (world_after puts_row).pages.history ≡ record { at = 0; row = small_row } ∷ [] }
    ensures own { owner_of ((world_after puts_row).pages.made 1) 7 ≡ Some (small_trx 0) }
    ensures former { first_former ((world_after puts_row).pages.made 1) (small_trx 0) 7 ≡ Some (gone_row 7) }
    ensures put_back { live_on 7 (world_after puts_back).pages.history ≡ [] }
    ensures not_own { owner_of ((world_after puts_back).pages.made 1) 7 ≡ None }
    ensures given { (world_after hands_leaf_over).pages.given 2 ≡ given_page 1 (pages_now three_pages (world_after puts_row) 1) 0 1 ∷ [] }
    ensures durable { (world_after hands_leaf_over).pages.durables 1 ≡ 5 ∷ [] }
{}
