//! Small cases of the definitions of recovery, good ones and bad ones.

ghost use Rattle.std.specs.Prelude.{◌≡◌, ℕ, true, false, List, [], ◌∷◌, Some, None};
ghost use Rattle.mp_model.specs.declared.replies.Reply.TheVariants.{Committed};
ghost use Rattle.mp_script.specs.declared.statements.Stmt.TheVariants.{Get, Scan};
ghost use Rattle.mp_cells.specs.SmallMaps.{fresh_map, gone_row};
ghost use Rattle.mp_cells.specs.declared.changes.Change.TheVariants.{PutRow, MakeUndo, PutUndo};
ghost use Rattle.mp_files.specs.Nine.{Image};
ghost use Rattle.mp_store.specs.FreshStores.{IsFresh};
ghost use Rattle.mp_histories.specs.Chains.{row_of_key};
ghost use Rattle.mp_histories.specs.Histories.{pages_after};
ghost use Rattle.mp_histories.specs.SmallHistory.{small_trx, small_row, small_put, small_restore};
ghost use Rattle.mp_recover.specs.PageRecords.{by_log_place, page_list, not_yet, InOrder};
ghost use Rattle.mp_recover.specs.KeptCommits.{CommitsOnce, kept_commits, present, folded_in};
ghost use Rattle.mp_recover.specs.Standing.{ChainStands, IsRecoverable};
ghost use Rattle.mp_recover.specs.Images.{CleanImage, SoundImage, logged_above, rows_of_image};
ghost use Rattle.mp_recover.specs.SmallLogs.{small_commit, stray_commit, small_image, rolled_back};
ghost use Rattle.mp_recover.specs.Settled.{first_counted, IsSettled};
ghost use Rattle.mp_recover.specs.Closed.{KeptAreClosed, RestsOn, reads_key};
ghost use Rattle.mp_recover.specs.SmallRuns.{acknowledged_put, unknown_put, put_then_read, row_of_put, kept_put, answer_without_waits};

/// A put and its commit follow on one another over a fresh map; a restore without the put before it doesn't: its record
/// wants a page with the put's LLSN. The undo page has two records of one mtr, and a page with that mtr's LLSN has
/// both.
pub fn law_order_examples()
    ensures order { by_log_place (small_commit ∷ small_put ∷ []) ≡ small_put ∷ small_commit ∷ [] }
    ensures equal { by_log_place (stray_commit ∷ small_commit ∷ []) ≡ small_commit ∷ stray_commit ∷ [] }
    ensures undo { page_list 2 (small_put ∷ small_commit ∷ [])
        ≡ record { at = 5; prev = 0; change = MakeUndo } ∷ record { at = 5; prev = 5; change = PutUndo (gone_row 7) } ∷ [] }
    ensures has { not_yet 5 (page_list 2 (small_put ∷ [])) ≡ [] }
    ensures good { InOrder 0 fresh_map (small_put ∷ small_commit ∷ []) }
    ensures bad { InOrder 0 fresh_map (small_restore ∷ []) → ⊥ }
{}

/// A commit record keeps the rows that its transaction put in its own log, and no others. No transaction has two. Of two
/// commits of a key the one with the greater timestamp counts, in whatever order they come.
pub fn law_kept_examples()
    ensures kept { kept_commits (small_put ∷ small_commit ∷ [])
        ≡ record { id = small_trx 0; cts = 9; puts = small_row ∷ [] } ∷ [] }
    ensures stray { kept_commits (small_put ∷ stray_commit ∷ [])
        ≡ record { id = small_trx 0; cts = 9; puts = [] } ∷ [] }
    ensures open { kept_commits (small_put ∷ []) ≡ [] }
    ensures once { CommitsOnce (kept_commits (small_put ∷ small_commit ∷ [])) }
    ensures twice { CommitsOnce (kept_commits (small_commit ∷ stray_commit ∷ [])) → ⊥ }
    ensures deletes { folded_in (record { key = 7; value = 65 ∷ [] } ∷ []) (kept_commits (small_put ∷ small_commit ∷ [])) ≡ [] }
    ensures keeps { folded_in (record { key = 7; value = 65 ∷ [] } ∷ []) (kept_commits (small_put ∷ []))
        ≡ record { key = 7; value = 65 ∷ [] } ∷ [] }
    ensures gone { present (gone_row 7 ∷ []) ≡ [] }
{}

/// After the put its row's chain stands for its commit, and for no commit as well, since one writer may be open; it
/// doesn't stand for a commit that put nothing there. Over a fresh map no mtr can be redone that another one must come
/// before.
pub fn law_standing_examples()
    ensures committed { ChainStands (kept_commits (small_put ∷ small_commit ∷ [])) (pages_after fresh_map (small_put ∷ [])) 7 (gone_row 7) }
    ensures open { ChainStands [] (pages_after fresh_map (small_put ∷ [])) 7 (gone_row 7) }
    ensures stray { ChainStands (kept_commits (small_put ∷ stray_commit ∷ [])) (pages_after fresh_map (small_put ∷ [])) 7 (gone_row 7) → ⊥ }
    ensures bad { IsRecoverable 0 (row_of_key fresh_map) fresh_map (small_restore ∷ []) → ⊥ }
{}

/// Without a commit the put's row becomes the row before it, and its undo page is free. The pages as the put leaves
/// them aren't settled: a listed version keeps its value, and an open one doesn't.
pub fn law_settled_examples()
    ensures good { IsSettled [] (pages_after fresh_map (small_put ∷ [])) rolled_back }
    ensures bad { IsSettled [] (pages_after fresh_map (small_put ∷ [])) (pages_after fresh_map (small_put ∷ [])) → ⊥ }
    ensures listed { first_counted (small_trx 0 ∷ []) (small_row ∷ []) (gone_row 7) ≡ small_row }
    ensures open { first_counted (small_trx 1 ∷ []) (small_row ∷ []) (gone_row 7) ≡ gone_row 7 }
{}

/// A clean image is sound, so recovery may begin with it.
pub fn law_clean_is_sound()
    ensures sound { (image : Image) → CleanImage image → SoundImage image }
{}

/// A fresh store with logs that hold no mtr is clean and has no rows. With an open gate alone in a log it isn't sound.
pub fn law_image_examples()
    ensures fresh { (store : List ℕ) → IsFresh store → CleanImage (small_image store (0 ∷ [])) }
    ensures bad { (store : List ℕ) → SoundImage (small_image store (165 ∷ [])) → ⊥ }
{}

/// A run whose one commit is acknowledged keeps that commit, with its timestamp and its writes. Where its end is unknown,
/// it may be kept or not. A commit rests on one that it read, and not on itself.
pub fn law_kept_closed_examples()
    ensures acknowledged { KeptAreClosed acknowledged_put (kept_put 1 (row_of_put ∷ []) ∷ []) }
    ensures lost { KeptAreClosed acknowledged_put [] → ⊥ }
    ensures renumbered { KeptAreClosed acknowledged_put (kept_put 2 (row_of_put ∷ []) ∷ []) → ⊥ }
    ensures unwritten { KeptAreClosed acknowledged_put (kept_put 1 [] ∷ []) → ⊥ }
    ensures unknown { KeptAreClosed unknown_put (kept_put 1 (row_of_put ∷ []) ∷ []) }
    ensures given_up { KeptAreClosed unknown_put [] }
    ensures rests { RestsOn put_then_read (answer_without_waits 2 4 (Committed 2)) 2 1 }
    ensures itself { RestsOn put_then_read (answer_without_waits 2 4 (Committed 2)) 2 2 → ⊥ }
    ensures scanned { reads_key 7 (Some (Scan 5 1)) ≡ true }
    ensures unread { reads_key 7 (Some (Get 5)) ≡ false }
{}
