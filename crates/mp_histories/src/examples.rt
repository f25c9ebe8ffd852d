//! Small histories and versions, as the definitions see them.

ghost use Rattle.std.specs.Prelude.{◌≡◌, ℕ, nat_le, [], ◌∷◌, Option, Some, None};
ghost use Rattle.mp_model.specs.declared.ids.TrxId.{TrxId};
ghost use Rattle.mp_cells.specs.SmallMaps.{fresh_map, gone_row};
ghost use Rattle.mp_cells.specs.Writes.{undo_at};
ghost use Rattle.mp_histories.specs.KeyOps.{put, restore, live, kept_version, NeverBack, Orderly, IsOwnRun};
ghost use Rattle.mp_histories.specs.Commits.{HasStamp, StandsFor};
ghost use Rattle.mp_histories.specs.Histories.{Version, pages_after, older, entry_at, by_version, live_on};
ghost use Rattle.mp_histories.specs.Stamped.{OpsFit, OpsStandFor};
ghost use Rattle.mp_histories.specs.Chains.{IsChain, RunsFrom, CoversRows};
ghost use Rattle.mp_histories.specs.Cuts.{IsCut, Rise, PrevsHold, IsClosed, in_log_order};
ghost use Rattle.mp_histories.specs.OwnOps.{own_ops, marked_on};
ghost use Rattle.mp_histories.specs.Readers.{Takes, IsReadAt};
ghost use Rattle.mp_histories.specs.SmallHistory.{small_trx, small_row, small_put, other_put, small_restore, wrong_restore, small_version, small_stamp};

/// Over a fresh map a put that takes an undo page and its restore are well made, and a restore of another row isn't. The
/// put's row stands until the restore, linked to the record that the put kept. It comes over a row without a writer;
/// while it is open another transaction's row may not come over it. The put alone is a cut of the two, and to keep it
/// alone is closed; the restore alone is neither, since the put changed its page before, and its `prev` is then wrong.
/// Their LLSNs rise in this order, and in no other. Both are node 1's own, and neither is node 2's.
pub fn law_history_examples()
    ensures runs { RunsFrom fresh_map (small_restore ∷ small_put ∷ []) }
    ensures wrong_runs { RunsFrom fresh_map (wrong_restore ∷ small_put ∷ []) → ⊥ }
    ensures stands { live_on 7 (small_put ∷ []) ≡ record { at = 0; row = small_row } ∷ [] }
    ensures put_back { live_on 7 (small_restore ∷ small_put ∷ []) ≡ [] }
    ensures first { older 1 (small_restore ∷ small_put ∷ []) ≡ small_put ∷ [] }
    ensures entry { entry_at 1 (small_restore ∷ small_put ∷ []) ≡ Some small_restore }
    ensures chain { IsChain (undo_at (pages_after fresh_map (small_put ∷ []))) (small_row ∷ []) (gone_row 7) }
    ensures no_chain { IsChain (undo_at fresh_map) (small_row ∷ []) (gone_row 7) → ⊥ }
    ensures cut { IsCut (small_restore ∷ small_put ∷ []) (small_put ∷ []) }
    ensures no_cut { IsCut (small_restore ∷ small_put ∷ []) (small_restore ∷ []) → ⊥ }
    ensures rise { Rise (small_restore ∷ small_put ∷ []) }
    ensures no_rise { Rise (small_put ∷ small_restore ∷ []) → ⊥ }
    ensures covers { CoversRows (HasStamp []) (HasStamp []) fresh_map small_put }
    ensures covers_open { CoversRows (HasStamp []) (HasStamp []) (pages_after fresh_map (small_put ∷ [])) other_put → ⊥ }
    ensures closed { IsClosed (λ mtr. nat_le mtr.llsn 5) (small_restore ∷ small_put ∷ []) }
    ensures not_closed { IsClosed (λ mtr. nat_le 6 mtr.llsn) (small_restore ∷ small_put ∷ []) → ⊥ }
    ensures own { own_ops (marked_on 7 1 (small_restore ∷ small_put ∷ [])) ≡ restore ∷ put (record { at = 0; row = small_row }) ∷ [] }
    ensures not_own { own_ops (marked_on 7 2 (small_restore ∷ small_put ∷ [])) ≡ [] }
    ensures prevs { PrevsHold fresh_map (small_restore ∷ small_put ∷ []) }
    ensures no_prevs { PrevsHold fresh_map (small_restore ∷ []) → ⊥ }
    ensures logged { in_log_order (small_put ∷ small_restore ∷ []) ≡ small_restore ∷ small_put ∷ [] }
{}

/// A restore takes off all versions of the newest one's writer, and no others. A put over a version that committed
/// below whatever the writer drew fits; over one that hasn't committed, or that committed above, it doesn't. The last
/// puts of one writer are its run; puts below another's aren't. Versions of an open transaction over a committed one
/// stand for that commit; those of two open ones stand for no commits. A reader takes a version that committed at its
/// view, and not one above it.
pub fn law_version_examples()
    ensures group { live by_version (restore ∷ put (small_version 2 1) ∷ put (small_version 1 1) ∷ put (small_version 0 0) ∷ []) ≡ small_version 0 0 ∷ [] }
    ensures kept { kept_version by_version (Some (small_trx 1)) (put (small_version 2 1) ∷ put (small_version 1 1) ∷ put (small_version 0 0) ∷ []) ≡ Some (small_version 2 1) }
    ensures not_kept { kept_version by_version (Some (small_trx 1)) (restore ∷ put (small_version 2 1) ∷ put (small_version 1 1) ∷ put (small_version 0 0) ∷ []) ≡ None }
    ensures apart { Orderly by_version (put (small_version 2 0) ∷ put (small_version 1 1) ∷ put (small_version 0 0) ∷ []) → ⊥ }
    ensures fits { OpsFit (small_stamp 0 5 ∷ []) (small_stamp 0 5 ∷ small_stamp 1 9 ∷ []) (put (small_version 1 1) ∷ put (small_version 0 0) ∷ []) }
    ensures over_open { OpsFit [] [] (put (small_version 1 1) ∷ put (small_version 0 0) ∷ []) → ⊥ }
    ensures over_later { OpsFit (small_stamp 0 9 ∷ []) (small_stamp 0 9 ∷ small_stamp 1 5 ∷ []) (put (small_version 1 1) ∷ put (small_version 0 0) ∷ []) → ⊥ }
    ensures never_back { NeverBack by_version (Some (small_trx 0)) (restore ∷ put (small_version 1 1) ∷ put (small_version 0 0) ∷ []) }
    ensures back { NeverBack by_version (Some (small_trx 1)) (restore ∷ put (small_version 1 1) ∷ put (small_version 0 0) ∷ []) → ⊥ }
    ensures run { IsOwnRun by_version (Some (small_trx 1)) (put (small_version 2 1) ∷ put (small_version 1 1) ∷ put (small_version 0 0) ∷ []) (small_version 2 1) }
    ensures no_run { IsOwnRun by_version (Some (small_trx 0)) (put (small_version 1 1) ∷ put (small_version 0 0) ∷ []) (small_version 0 0) → ⊥ }
    ensures one_open { OpsStandFor (small_stamp 0 5 ∷ []) (gone_row 7) (put (small_version 1 1) ∷ put (small_version 0 0) ∷ []) }
    ensures two_open { (wrote : Option TrxId → Option Version) → StandsFor by_version (HasStamp []) wrote (gone_row 7) (small_version 1 1 ∷ small_version 0 0 ∷ []) → ⊥ }
    ensures takes { Takes by_version (HasStamp (small_stamp 0 5 ∷ [])) (Some (small_trx 2)) 5 (small_version 1 1 ∷ small_version 0 0 ∷ []) (Some (small_version 0 0)) }
    ensures read { IsReadAt by_version (HasStamp (small_stamp 0 5 ∷ [])) (Some (small_trx 2)) 5 (λ writer. kept_version by_version writer (put (small_version 1 1) ∷ put (small_version 0 0) ∷ [])) (Some (small_version 0 0)) }
    ensures read_early { IsReadAt by_version (HasStamp (small_stamp 0 5 ∷ [])) (Some (small_trx 2)) 4 (λ writer. kept_version by_version writer (put (small_version 1 1) ∷ put (small_version 0 0) ∷ [])) (Some (small_version 0 0)) → ⊥ }
    ensures too_early { Takes by_version (HasStamp (small_stamp 0 5 ∷ [])) (Some (small_trx 2)) 4 (small_version 1 1 ∷ small_version 0 0 ∷ []) (Some (small_version 0 0)) → ⊥ }
{}
